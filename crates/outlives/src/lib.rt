//! What has to outlive a region for a type to outlive it: the type's components.
//!
//! A component is a region, a parameter, a placeholder, a variable or an alias in the type. What is inside an alias is
//! left to whoever decides whether the alias outlives the region, but where a variable stands in it that a binder
//! outside the alias binds: there it is the components of its arguments.
#![tactic(auto)]

ghost use Rattle.std.specs.Prelude.{◌≡◌, ◌++◌, IsTrue, IfOk, OnOk, OnErr, []};
ghost use Rattle.relation_terms.specs.Trees.{known};
ghost use Rattle.outlives.specs.Outliving.{AddsSome, HasAll};
ghost use Rattle.outlives.specs.Collecting.{AddsFrom, HasAllOf, arg_components};

mod collecting;
pub mod met;

use crate::collecting::{collect_alias_args, collect_part};
use crate::met::none_met;
use relation_terms::terms::{
    AliasTy, InferTy, Interner, Keys, OutOfMemory, ParamTy, Part, PlaceholderType, RegionKey, Ty,
};
use smallvec::SmallVec;
use std::alloc::Global;
use std::default::MadeWith;

/// What has to outlive a region for a type to outlive it, over keys, ids of items and names.
#[derive(Drop)]
pub enum Component<X, D, N> {
    /// A region that no binder binds.
    Region(RegionKey<X>),
    Param(ParamTy<N>),
    Placeholder(PlaceholderType<N>),
    UnresolvedInferenceVariable(InferTy),
    /// An alias in which no variable stands that a binder outside it binds.
    Alias(AliasTy<X, D>),
    /// The components of the arguments of an alias in which such a variable stands. Whether the alias itself outlives a
    /// region can't be asked, as the variable means nothing outside its binder.
    EscapingAlias(Vec<Component<X, D, N>>),
}

/// A component of an interner's type.
pub type ComponentOf<I> = Component<<I as Keys>::Key, <I as Keys>::Id, <I as Keys>::Name>;

// What stands in the unused places of a `SmallVec`.
impl<X, D, N> MadeWith<Global> for Component<X, D, N> {
    fn made_with(alloc: Global) -> Component<X, D, N> {
        Component::EscapingAlias(Vec::new(alloc))
    }
}

/// Adds the components of a type: what has to outlive a region for the type to outlive it.
///
/// Of the arguments of a function item these are the components of all but regions; of those of a closure that of the
/// types it captures, and of a coroutine's that of the type it is resumed with too; a coroutine's witness has none. An
/// alias is a component itself, but where a variable escapes it; what a binder binds is none.
///
/// The interner has to know the type. What stands in `out` stays there, in front, and each type and constant is gone
/// into once, however often it stands in the type. Answers `OutOfMemory` where a growth was refused, and then some of
/// the components were added.
///
/// It comes from upstream's function of this name, which answers nothing.
pub fn push_outlives_components<I: Interner>(
    cx: &I,
    ty: &Ty<I>,
    out: &mut SmallVec<ComponentOf<I>, 4>,
) -> Result<(), OutOfMemory>
    requires { IsTrue (known ((I.meaning cx.now).ty ty.now)) }
    ensures some { AddsFrom (I.meaning cx.now) ((I.meaning cx.now).ty ty.now) out.old.items out.new.items }
    ensures all { OnOk result (HasAllOf (I.meaning cx.now) ((I.meaning cx.now).ty ty.now) out.new.items) }
{
    let list = components_of(cx, ty)?;
    append(list, out)
}

/// The components of a type, in a list of their own: what `push_outlives_components` adds.
///
/// The interner has to know the type. Answers `OutOfMemory` where a growth was refused.
pub fn components_of<I: Interner>(cx: &I, ty: &Ty<I>) -> Result<Vec<ComponentOf<I>>, OutOfMemory>
    requires { IsTrue (known ((I.meaning cx.now).ty ty.now)) }
    ensures some { IfOk result (λ list. AddsFrom (I.meaning cx.now) ((I.meaning cx.now).ty ty.now) [] list.items) }
    ensures all { IfOk result (λ list. HasAllOf (I.meaning cx.now) ((I.meaning cx.now).ty ty.now) list.items) }
{
    let mut list = Vec::new(cx.alloc());
    let mut visited = none_met(cx);
    collect_part(cx, &Part::Ty(*ty), &mut list, &mut visited)?;
    Ok(list)
}

// Puts the members of a list behind others. It is over any type: over components it would take its check five times as
// long. A list with a place for four is made only where one is given already: nothing else bounds its size.
fn append<T: Drop + MadeWith<Global>>(
    list: Vec<T>,
    out: &mut SmallVec<T, 4>,
) -> Result<(), OutOfMemory>
    ensures ok { OnOk result (out.new.items ≡ out.old.items ++ list.items) }
    ensures err { OnErr result (out.new.items ≡ out.old.items) }
{
    let mut added: SmallVec<T, 4> = SmallVec::from_vec(list);
    out.append(&mut added)?;
    Ok(())
}

/// Adds the components of the arguments of an alias, but of those that the alias is bivariant in, and not the alias
/// itself.
///
/// The interner has to know the arguments. What stands in `out` stays there, in front. Answers `OutOfMemory` where a
/// growth was refused, and then some of the components were added.
///
/// It comes from upstream's function of this name, which answers nothing.
pub fn compute_alias_components_recursive<I: Interner>(
    cx: &I,
    alias_ty: &AliasTy<I::Key, I::Id>,
    out: &mut SmallVec<ComponentOf<I>, 4>,
) -> Result<(), OutOfMemory>
    requires { IsTrue (known ((I.meaning cx.now).args (alias_ty.now).args)) }
    ensures some { let m = I.meaning cx.now in AddsSome m (arg_components m alias_ty.now) out.old.items out.new.items }
    ensures all { let m = I.meaning cx.now in OnOk result (HasAll m (arg_components m alias_ty.now) out.new.items) }
{
    let mut list = Vec::new(cx.alloc());
    collect_alias_args(cx, alias_ty, &mut list)?;
    append(list, out)
}
