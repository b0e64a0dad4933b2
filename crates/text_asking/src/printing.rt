//! How errors and answers print, over any interner.
ghost use Rattle.std.specs.Prelude.{◌≡◌, ◌<◌, length, IfSome, IfNone, IsTrue};
ghost use Rattle.std.specs.List.{All};
ghost use Rattle.relation_terms.specs.Trees.{known};
ghost use Rattle.relation_terms.specs.Meaning.{term_tree};
ghost use Rattle.relation_terms.specs.Predicates.{predicate_kind_tree};
ghost use Rattle.relation_folds.specs.Faults.{KnowsBoth, KnowsError};
ghost use Rattle.relation_semantics.specs.Goals.{KnowsGoal};
ghost use Rattle.relation_semantics.specs.Stores.{ConstraintIn};
ghost use Rattle.relation_semantics.specs.Constraints.{constraint_of};
ghost use Rattle.variable_tables.specs.Tables.{IsLawful};
ghost use Rattle.variable_tables.specs.Variables.{value_at};
ghost use Rattle.variable_tables.specs.declared.inner.VariableValue.TheVariants.{Known};
ghost use Rattle.relation_reference.specs.RefCtxt.{store_in};
ghost use Rattle.text_asking.specs.Asking.{AreBoundKnown, KnowsRelated};

use crate::environment::write_environment;
use relation_folds::error::{ExpectedFound, RelateFault, TypeError, TypeErrorOf};
use relation_reference::context::{RefCtxt, VariableTable, VariableValue};
use relation_terms::predicate::{ClauseKind, PredicateKind, RegionConstraint};
use relation_terms::terms::{AliasRelationDirection, Const, DefId, Interner, TermKind, Ty};
use std::fmt::{self, Write};
use text_terms::printing::{
    TextsOf, write_arg, write_const, write_item_name, write_object_predicates, write_region,
    write_ty,
};
use type_relations::relate::solver_relating::{GoalOf, RelateGoals};

// The name of an error.
fn error_name<X, D, N>(error: &TypeError<X, D, N>) -> &'static str {
    match error {
        TypeError::Mismatch => "Mismatch",
        TypeError::PolarityMismatch(_) => "PolarityMismatch",
        TypeError::SafetyMismatch(_) => "SafetyMismatch",
        TypeError::AbiMismatch(_) => "AbiMismatch",
        TypeError::Mutability => "Mutability",
        TypeError::ArgumentMutability(_) => "ArgumentMutability",
        TypeError::TupleSize(_) => "TupleSize",
        TypeError::ArraySize(_) => "ArraySize",
        TypeError::ArgCount => "ArgCount",
        TypeError::RegionsDoesNotOutlive(..) => "RegionsDoesNotOutlive",
        TypeError::RegionsInsufficientlyPolymorphic(..) => "RegionsInsufficientlyPolymorphic",
        TypeError::RegionsPlaceholderMismatch => "RegionsPlaceholderMismatch",
        TypeError::Sorts(_) => "Sorts",
        TypeError::ArgumentSorts(..) => "ArgumentSorts",
        TypeError::Traits(_) => "Traits",
        TypeError::VariadicMismatch(_) => "VariadicMismatch",
        TypeError::CyclicTy(_) => "CyclicTy",
        TypeError::CyclicConst(_) => "CyclicConst",
        TypeError::ProjectionMismatched(_) => "ProjectionMismatched",
        TypeError::ExistentialMismatch(_) => "ExistentialMismatch",
        TypeError::ConstMismatch(_) => "ConstMismatch",
        TypeError::IntrinsicCast => "IntrinsicCast",
        TypeError::ForceInlineCast => "ForceInlineCast",
        TypeError::TargetFeatureCast(_) => "TargetFeatureCast",
    }
}

// Writes two types with a comma between.
fn write_types<I: Interner, W: Write>(
    cx: &I,
    texts: &TextsOf<I>,
    types: &ExpectedFound<Ty<I>>,
    out: &mut W,
) -> fmt::Result
    requires { KnowsBoth (I.meaning cx.now).ty types.now }
{
    write_ty(cx, texts, &types.expected, out)?;
    out.write_str(", ")?;
    write_ty(cx, texts, &types.found, out)
}

// Writes two constants with a comma between.
fn write_consts<I: Interner, W: Write>(
    cx: &I,
    texts: &TextsOf<I>,
    constants: &ExpectedFound<Const<I>>,
    out: &mut W,
) -> fmt::Result
    requires { KnowsBoth (I.meaning cx.now).const_ constants.now }
{
    write_const(cx, texts, &constants.expected, out)?;
    out.write_str(", ")?;
    write_const(cx, texts, &constants.found, out)
}

// Writes the names of two items with a comma between.
fn write_items<I: Interner, W: Write>(
    texts: &TextsOf<I>,
    expected: I::Id,
    found: I::Id,
    out: &mut W,
) -> fmt::Result {
    write_item_name::<I, W>(texts, &DefId(expected), out)?;
    out.write_str(", ")?;
    write_item_name::<I, W>(texts, &DefId(found), out)
}

// Writes the items, or the predicates of trait objects, that an error names, in parentheses. A region of a binder has
// no text: of an error that names one nothing is written.
fn write_error_items<I: Interner, W: Write>(
    cx: &I,
    texts: &TextsOf<I>,
    error: &TypeErrorOf<I>,
    out: &mut W,
) -> fmt::Result
    requires { KnowsError (I.meaning cx.now) error.now }
{
    match error {
        TypeError::Traits(traits) => {
            out.write_str("(")?;
            write_items::<I, W>(texts, traits.expected.0, traits.found.0, out)?;
            out.write_str(")")
        }
        TypeError::ProjectionMismatched(items) => {
            out.write_str("(")?;
            write_items::<I, W>(texts, items.expected, items.found, out)?;
            out.write_str(")")
        }
        TypeError::ExistentialMismatch(lists) => {
            out.write_str("(")?;
            write_object_predicates(cx, texts, &lists.expected, out)?;
            out.write_str(", ")?;
            write_object_predicates(cx, texts, &lists.found, out)?;
            out.write_str(")")
        }
        _ => Ok(()),
    }
}

// Writes what an error names, in parentheses: types, regions and constants, or else items and predicates.
fn write_error_terms<I: Interner, W: Write>(
    cx: &I,
    texts: &TextsOf<I>,
    error: &TypeErrorOf<I>,
    out: &mut W,
) -> fmt::Result
    requires { KnowsError (I.meaning cx.now) error.now }
{
    match error {
        TypeError::RegionsDoesNotOutlive(longer, shorter) => {
            out.write_str("(")?;
            write_region(cx, texts, longer, out)?;
            out.write_str(", ")?;
            write_region(cx, texts, shorter, out)?;
            out.write_str(")")
        }
        TypeError::Sorts(types) => {
            out.write_str("(")?;
            write_types(cx, texts, types, out)?;
            out.write_str(")")
        }
        TypeError::ArgumentSorts(types, place) => {
            out.write_str("(")?;
            write_types(cx, texts, types, out)?;
            write!(out, ", {place})")
        }
        TypeError::CyclicTy(ty) => {
            out.write_str("(")?;
            write_ty(cx, texts, ty, out)?;
            out.write_str(")")
        }
        TypeError::ArraySize(constants) | TypeError::ConstMismatch(constants) => {
            out.write_str("(")?;
            write_consts(cx, texts, constants, out)?;
            out.write_str(")")
        }
        TypeError::CyclicConst(constant) => {
            out.write_str("(")?;
            write_const(cx, texts, constant, out)?;
            out.write_str(")")
        }
        _ => write_error_items(cx, texts, error, out),
    }
}

/// Writes why two terms do not relate: the error's name and, of its parts, those that have a text.
///
/// # Errors
/// `fmt::Error` where `out` refused to take some of the text. What it took before stands.
pub fn write_error<I: Interner, W: Write>(
    cx: &I,
    texts: &TextsOf<I>,
    error: &TypeErrorOf<I>,
    out: &mut W,
) -> fmt::Result
    requires { KnowsError (I.meaning cx.now) error.now }
{
    out.write_str(error_name(error))?;
    match error {
        TypeError::PolarityMismatch(pair) => write!(out, "({}, {})", pair.expected, pair.found),
        TypeError::SafetyMismatch(pair) => write!(out, "({:?}, {:?})", pair.expected, pair.found),
        TypeError::AbiMismatch(pair) => write!(out, "({:?}, {:?})", pair.expected, pair.found),
        TypeError::VariadicMismatch(pair) => write!(out, "({}, {})", pair.expected, pair.found),
        TypeError::TupleSize(pair) => write!(out, "({}, {})", pair.expected, pair.found),
        TypeError::ArgumentMutability(place) => write!(out, "({place})"),
        _ => write_error_terms(cx, texts, error, out),
    }
}

// Writes a constraint on regions.
fn write_constraint<I: Interner, W: Write>(
    ctx: &RefCtxt<I>,
    texts: &TextsOf<I>,
    constraint: &RegionConstraint<I::Key>,
    out: &mut W,
) -> fmt::Result
    requires { ConstraintIn (store_in I.meaning ctx.now) (constraint_of (I.meaning ctx.now.interner) constraint.now) }
{
    let cx = &ctx.interner;
    match constraint {
        RegionConstraint::Eq(equal) => {
            write_region(cx, texts, &equal.0, out)?;
            out.write_str(" == ")?;
            write_region(cx, texts, &equal.1, out)
        }
        RegionConstraint::Outlives(outlives) => {
            write_arg(cx, texts, &outlives.0, out)?;
            out.write_str(": ")?;
            write_region(cx, texts, &outlives.1, out)
        }
    }
}

// Writes the constraints that a context has recorded, if any.
pub(crate) fn write_constraints<I: Interner, W: Write>(
    ctx: &RefCtxt<I>,
    texts: &TextsOf<I>,
    out: &mut W,
) -> fmt::Result
    requires { IsLawful (I.meaning ctx.now.interner) ctx.now.inner }
{
    let mut any = false;
    for constraint in ctx.region_constraints() {
        out.write_str(if any { ", " } else { "; regions=[" })?;
        write_constraint(ctx, texts, constraint, out)?;
        any = true;
    }
    if any { out.write_str("]") } else { Ok(()) }
}

// The name of what a clause says.
fn clause_name<X, D, N>(clause: &ClauseKind<X, D, N>) -> &'static str {
    match clause {
        ClauseKind::Trait(_) => "Trait",
        ClauseKind::RegionOutlives(_) => "RegionOutlives",
        ClauseKind::TypeOutlives(_) => "TypeOutlives",
        ClauseKind::Projection(_) => "Projection",
        ClauseKind::ConstArgHasType(..) => "ConstArgHasType",
        ClauseKind::WellFormed(_) => "WellFormed",
        ClauseKind::ConstEvaluatable(_) => "ConstEvaluatable",
        ClauseKind::HostEffect(_) => "HostEffect",
        ClauseKind::UnstableFeature(_) => "UnstableFeature",
    }
}

// The name of what a predicate asks.
fn predicate_name<X, D, N>(predicate: &PredicateKind<X, D, N>) -> &'static str {
    match predicate {
        PredicateKind::Clause(clause) => clause_name(clause),
        PredicateKind::Subtype(_) => "Subtype",
        PredicateKind::Coerce(_) => "Coerce",
        PredicateKind::NormalizesTo(_) => "NormalizesTo",
        PredicateKind::AliasRelate(..) => "AliasRelate",
        PredicateKind::Ambiguous => "Ambiguous",
    }
}

// The name of how an alias is to be related.
fn direction_name(direction: AliasRelationDirection) -> &'static str {
    match direction {
        AliasRelationDirection::Equate => "Equate",
        AliasRelationDirection::Subtype => "Subtype",
    }
}

// Writes a type or a constant.
fn write_term<I: Interner, W: Write>(
    cx: &I,
    texts: &TextsOf<I>,
    term: &TermKind<I::Key>,
    out: &mut W,
) -> fmt::Result
    requires { IsTrue (known (term_tree (I.meaning cx.now) term.now)) }
{
    match term {
        TermKind::Ty(ty) => write_ty(cx, texts, ty, out),
        TermKind::Const(constant) => write_const(cx, texts, constant, out),
    }
}

// Writes the terms of what a goal asks, in parentheses. Relating leaves goals of these forms alone: of another one
// nothing is written.
fn write_goal_terms<I: Interner, W: Write>(
    cx: &I,
    texts: &TextsOf<I>,
    predicate: &PredicateKind<I::Key, I::Id, I::Name>,
    out: &mut W,
) -> fmt::Result
    requires { IsTrue (known (predicate_kind_tree (I.meaning cx.now) predicate.now)) }
{
    match predicate {
        PredicateKind::Subtype(pair) => {
            out.write_str("(")?;
            write_ty(cx, texts, &pair.a, out)?;
            out.write_str(", ")?;
            write_ty(cx, texts, &pair.b, out)?;
            write!(out, ", {})", pair.a_is_expected)
        }
        PredicateKind::AliasRelate(a, b, direction) => {
            out.write_str("(")?;
            write_term(cx, texts, a, out)?;
            out.write_str(", ")?;
            write_term(cx, texts, b, out)?;
            write!(out, ", {})", direction_name(*direction))
        }
        PredicateKind::Clause(ClauseKind::WellFormed(term)) => {
            out.write_str("(")?;
            write_term(cx, texts, term, out)?;
            out.write_str(")")
        }
        _ => Ok(()),
    }
}

// Writes a goal: the name of what it asks, of its parts those that have a text, and what it assumes, if anything.
fn write_goal<I: Interner, W: Write>(
    cx: &I,
    texts: &TextsOf<I>,
    goal: &GoalOf<I>,
    out: &mut W,
) -> fmt::Result
    requires { KnowsGoal (I.meaning cx.now) goal.now }
{
    let predicate = cx.predicate_kind(&goal.predicate).value;
    out.write_str(predicate_name(&predicate))?;
    write_goal_terms(cx, texts, &predicate, out)?;
    write_environment(cx, texts, &goal.param_env, out)
}

// Writes the goals that a relation leaves, if any, in the order in which they were registered.
pub(crate) fn write_goals<I: Interner, W: Write>(
    cx: &I,
    texts: &TextsOf<I>,
    goals: &[GoalOf<I>],
    out: &mut W,
) -> fmt::Result
    requires { All (KnowsGoal (I.meaning cx.now)) goals.now }
{
    let mut any = false;
    for goal in goals {
        out.write_str(if any { ", " } else { "; goals=[" })?;
        write_goal(cx, texts, goal, out)?;
        any = true;
    }
    if any { out.write_str("]") } else { Ok(()) }
}

// The term that a root is bound to, or none, also where the variable is the same as another.
fn bound_at<K: Copy>(variables: &VariableTable<K>, number: usize) -> Option<K>
    requires { number < length variables.now.items }
    ensures bound { IfSome result (λ t. value_at variables.now.items number ≡ Known t) }
    ensures none { IfNone result ((t : K) → value_at variables.now.items number ≡ Known t → ⊥) }
{
    match variables.probe(number) {
        VariableValue::Known(term) => Some(term),
        VariableValue::Unknown => None,
        VariableValue::SameAs(_) => None,
    }
}

// Writes what stands before a root that is bound, of the kind of that sign: what is written is the first one or not.
fn write_root<W: Write>(any: bool, sign: &str, number: usize, out: &mut W) -> fmt::Result {
    out.write_str(if any { ", " } else { "; bound=[" })?;
    write!(out, "{sign}{number}=")
}

// Writes the roots of a kind that are bound to a type, each with its type. Answers whether any root was written so far.
fn write_bound_tys<I: Interner, W: Write>(
    cx: &I,
    texts: &TextsOf<I>,
    sign: &str,
    variables: &VariableTable<Ty<I>>,
    before: bool,
    out: &mut W,
) -> Result<bool, fmt::Error>
    requires { AreBoundKnown (I.meaning cx.now).ty variables.now.items }
{
    let mut any = before;
    for number in 0..variables.len() {
        if let Some(ty) = bound_at(variables, number) {
            write_root(any, sign, number, out)?;
            write_ty(cx, texts, &ty, out)?;
            any = true;
        }
    }
    Ok(any)
}

// The same of constants.
fn write_bound_consts<I: Interner, W: Write>(
    cx: &I,
    texts: &TextsOf<I>,
    variables: &VariableTable<Const<I>>,
    before: bool,
    out: &mut W,
) -> Result<bool, fmt::Error>
    requires { AreBoundKnown (I.meaning cx.now).const_ variables.now.items }
{
    let mut any = before;
    for number in 0..variables.len() {
        if let Some(constant) = bound_at(variables, number) {
            write_root(any, "?c", number, out)?;
            write_const(cx, texts, &constant, out)?;
            any = true;
        }
    }
    Ok(any)
}

// Writes the roots that are bound, if any, each with its term: of types, integers, floats and constants.
pub(crate) fn write_bound<I: Interner, W: Write>(
    ctx: &RefCtxt<I>,
    texts: &TextsOf<I>,
    out: &mut W,
) -> fmt::Result
    requires { IsLawful (I.meaning ctx.now.interner) ctx.now.inner }
{
    let cx = &ctx.interner;
    let mut any = write_bound_tys(cx, texts, "?", &ctx.inner.types, false, out)?;
    any = write_bound_tys(cx, texts, "?i", &ctx.inner.ints, any, out)?;
    any = write_bound_tys(cx, texts, "?f", &ctx.inner.floats, any, out)?;
    any = write_bound_consts(cx, texts, &ctx.inner.consts, any, out)?;
    if any { out.write_str("]") } else { Ok(()) }
}

// Writes that a context has met an error, if it has.
pub(crate) fn write_tainted<I: Interner, W: Write>(ctx: &RefCtxt<I>, out: &mut W) -> fmt::Result {
    if ctx.tainted() {
        return out.write_str("; tainted");
    }
    Ok(())
}

/// Writes what a relation answered, the goals that it leaves, and then what its context has recorded: the constraints
/// on regions, in the order in which they were recorded, the roots that are bound to a term, and that an error was met.
///
/// # Errors
/// `fmt::Error` where `out` refused to take some of the text. What it took before stands.
pub fn write_answer<I: Interner, W: Write>(
    ctx: &RefCtxt<I>,
    texts: &TextsOf<I>,
    answer: &RelateGoals<I>,
    out: &mut W,
) -> fmt::Result
    requires lawful { IsLawful (I.meaning ctx.now.interner) ctx.now.inner }
    requires known { KnowsRelated (I.meaning ctx.now.interner) answer.now }
{
    match answer {
        Ok(goals) => {
            out.write_str("ok")?;
            write_goals(&ctx.interner, texts, goals, out)?;
        }
        Err(RelateFault::Memory) => out.write_str("memory")?,
        Err(RelateFault::Budget) => out.write_str("budget")?,
        Err(RelateFault::Unrelated(error)) => {
            out.write_str("err ")?;
            write_error(&ctx.interner, texts, error, out)?;
        }
    }
    write_constraints(ctx, texts, out)?;
    write_bound(ctx, texts, out)?;
    write_tainted(ctx, out)
}
