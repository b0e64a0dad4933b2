//! The trait that declares an item.
ghost use Rattle.std.specs.Prelude.{◌≡◌, IsSome, Some};
ghost use Rattle.relation_terms.specs.Predicates.{item_parent};
ghost use Rattle.relation_terms.specs.Aliases.{parent_count};

use crate::terms::{DefId, Interner, TraitAssocTermId, TraitId};

// The trait that declares an item that has one.
pub(super) fn parent_of<I: Interner>(cx: &I, def_id: &TraitAssocTermId<I::Id>) -> TraitId<I::Id>
    requires { IsSome (item_parent (I.meaning cx.now) (def_id.now).0) }
    ensures { Some ((I.meaning cx.now).id result.0) ≡ item_parent (I.meaning cx.now) (def_id.now).0 }
{
    match cx.projection_parent(def_id) {
        Some(trait_id) => trait_id,
        None => unreachable!(),
    }
}

// How many generic parameters that trait has.
pub(super) fn parent_count<I: Interner>(cx: &I, def_id: &TraitAssocTermId<I::Id>) -> usize
    requires { IsSome (item_parent (I.meaning cx.now) (def_id.now).0) }
    ensures { result ≡ parent_count (I.meaning cx.now) (def_id.now).0 }
{
    let trait_id = parent_of(cx, def_id);
    cx.generics_count(&DefId(trait_id.0))
}
