//! The binders around a term.
ghost use Rattle.std.specs.Prelude.{◌≡◌, ◌↔◌, IsTrue, IfErr, OnOk, Some, map, slice_get};
ghost use Rattle.may_relate.specs.Around.{variable_sort, sort_of, sorts_around, number_around, sort_at, IsUnbound};

use crate::Unfit;
use relation_terms::terms::{BoundVar, BoundVariableKind, DebruijnIndex, Keys};

/// The binders around a term, by their lists, the innermost first.
#[derive(Clone, Copy)]
pub enum Around<'a, N> {
    /// None.
    Nothing,
    /// One with its list, the place where it is numbered, and those around it.
    Binder(&'a [BoundVariableKind<N>], u32, &'a Around<'a, N>),
}

/// The binders around a term of an interner.
pub type AroundOf<'a, I> = Around<'a, <I as Keys>::Name>;

/// The number of the binders around a term: 0 is that of none.
pub fn number_around<N>(around: &Around<N>) -> u64
    ensures { result ≡ number_around around.now }
{
    match around {
        Around::Nothing => 0,
        Around::Binder(_, place, _) => *place as u64 + 1,
    }
}

/// What a binder binds.
#[derive(Clone, Copy)]
pub enum BoundSort {
    Region,
    Ty,
    Const,
}

// Whether a variable of a binder is of a sort.
fn is_of<N>(variable: &BoundVariableKind<N>, sort: BoundSort) -> bool
    ensures { IsTrue result ↔ (variable_sort variable.now ≡ sort_of sort) }
{
    matches!(
        (variable, sort),
        (BoundVariableKind::Region(_), BoundSort::Region)
            | (BoundVariableKind::Ty(_), BoundSort::Ty)
            | (BoundVariableKind::Const(_), BoundSort::Const)
    )
}

// Whether one of a sort stands at a place of a binder's list.
fn has<N>(list: &[BoundVariableKind<N>], place: usize, sort: BoundSort) -> bool
    ensures { IsTrue result ↔ (slice_get (map variable_sort list.now) place ≡ Some (sort_of sort)) }
{
    match list.get(place) {
        None => false,
        Some(variable) => is_of(variable, sort),
    }
}

// Nothing, where the binder `depth` steps up has a variable of a sort at a place of its list; else why not.
fn bound_in<N>(around: &Around<N>, depth: u64, place: usize, sort: BoundSort) -> Result<(), Unfit>
    ensures bound { OnOk result (sort_at (sorts_around around.now) depth place ≡ Some (sort_of sort)) }
    ensures why { IfErr result (IsUnbound (sorts_around around.now) depth place (sort_of sort)) }
{
    match around {
        Around::Nothing => Err(Unfit::Escapes(DebruijnIndex(depth))),
        Around::Binder(list, _, _) if depth == 0 => {
            if has(list, place, sort) {
                Ok(())
            } else {
                Err(Unfit::NotInList(BoundVar(place)))
            }
        }
        Around::Binder(_, _, outer) => bound_in(outer, depth - 1, place, sort),
    }
}

/// Nothing, where a bound variable stands in its binder's list as what it is; else why not.
pub fn bound<N>(
    around: &Around<N>,
    depth: DebruijnIndex,
    place: BoundVar,
    sort: BoundSort,
) -> Result<(), Unfit>
    ensures bound { OnOk result (sort_at (sorts_around around.now) depth.0 place.0 ≡ Some (sort_of sort)) }
    ensures why { IfErr result (IsUnbound (sorts_around around.now) depth.0 place.0 (sort_of sort)) }
{
    bound_in(around, depth.0, place.0, sort)
}
