//! What is written of an answer, row by row: two texts, and behind each a region. It takes nothing of a context.
ghost use Rattle.text_users.specs.Rows.{IsOfNone, IsOfValues, IsOfConstraint, IsOfConstraints, IsOfAnswer};

use relation_regions::{RegionOutlivesPredicate, Solved};
use relation_terms::predicate::RegionConstraint;
use relation_terms::terms::{GenericArgKind, RegionKey};

/// Two texts, and behind each a region, or none.
pub(crate) struct Row<X> {
    pub(crate) before: &'static str,
    pub(crate) first: Option<RegionKey<X>>,
    pub(crate) between: &'static str,
    pub(crate) second: Option<RegionKey<X>>,
}

// The one text in the row 0, the other one in all others.
fn text_in(number: usize, first: &'static str, other: &'static str) -> &'static str {
    if number == 0 { first } else { other }
}

// A text alone.
fn text_row<X>(before: &'static str) -> Row<X>
    ensures { IsOfNone result }
{
    Row {
        before,
        first: None,
        between: "",
        second: None,
    }
}

// What the next variable has to outlive, or one more region that the same one has to; behind all the end.
fn value_row<X: Copy + Eq>(values: &[RegionOutlivesPredicate<X>], number: usize) -> Row<X>
    ensures { IsOfValues values.now result }
{
    let Some(value) = values.get(number) else {
        return text_row(text_in(number, "met", "]"));
    };
    if number > 0 && values[number - 1].0 == value.0 {
        return Row {
            before: "",
            first: None,
            between: ", ",
            second: Some(value.1),
        };
    }
    Row {
        before: text_in(number, "met; ", "], "),
        first: Some(value.0),
        between: "=[",
        second: Some(value.1),
    }
}

// A constraint.
fn constraint_row<X: Copy>(constraint: &RegionConstraint<X>, before: &'static str) -> Row<X>
    ensures { IsOfConstraint constraint.now result }
{
    match constraint {
        RegionConstraint::Eq(equal) => Row {
            before,
            first: Some(equal.0),
            between: " == ",
            second: Some(equal.1),
        },
        RegionConstraint::Outlives(outlives) => match outlives.0 {
            GenericArgKind::Lifetime(longer) => Row {
                before,
                first: Some(longer),
                between: ": ",
                second: Some(outlives.1),
            },
            GenericArgKind::Ty(_) => text_row(""),
            GenericArgKind::Const(_) => text_row(""),
        },
    }
}

// The constraint of a number; of one that there isn't, nothing.
fn row_at<X: Copy>(constraints: &[RegionConstraint<X>], at: usize, before: &'static str) -> Row<X>
    ensures { IsOfConstraints constraints.now result }
{
    match constraints.get(at) {
        Some(constraint) => constraint_row(constraint, before),
        None => text_row(""),
    }
}

// The next constraint that is named.
fn named_row<X: Copy>(constraints: &[RegionConstraint<X>], by: &[usize], number: usize) -> Row<X>
    ensures { IsOfConstraints constraints.now result }
{
    match by.get(number) {
        Some(at) => row_at(constraints, *at, text_in(number, ", by ", ", ")),
        None => text_row(""),
    }
}

/// A row of an answer, with what a context has recorded of regions.
pub(crate) fn row_of<X: Copy + Eq>(
    solved: &Solved<X>,
    constraints: &[RegionConstraint<X>],
    number: usize,
) -> Row<X>
    ensures { IsOfAnswer solved.now constraints.now result }
{
    match solved {
        Solved::Met(values) => value_row(values.as_slice(), number),
        Solved::Unmet {
            longer,
            shorter,
            by,
        } => {
            if number == 0 {
                return Row {
                    before: "unmet: ",
                    first: Some(*longer),
                    between: ": ",
                    second: Some(*shorter),
                };
            }
            named_row(constraints, by.as_slice(), number - 1)
        }
    }
}

/// How many rows an answer has.
pub(crate) fn row_count<X: Copy>(solved: &Solved<X>) -> usize {
    let parts = match solved {
        Solved::Met(values) => values.len(),
        Solved::Unmet { by, .. } => by.len(),
    };
    parts.saturating_add(1)
}
