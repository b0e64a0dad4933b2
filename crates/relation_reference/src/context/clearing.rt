//! Whether a term may stand in what a variable is bound to: whether neither the variable stands in it, nor a
//! placeholder that the variable can't name. It is asked of aliases, before they are gone into.
ghost use Rattle.std.specs.Prelude.{◌≡◌, IsTrue, IsFalse, IfOk, OnOk};
ghost use Rattle.relation_terms.specs.Trees.{known, leaf};
ghost use Rattle.relation_terms.specs.Parts.{part_tree};
ghost use Rattle.relation_semantics.specs.Stores.{InContext};
ghost use Rattle.variable_tables.specs.Tables.{IsLawful};
ghost use Rattle.relation_reference.specs.RefCtxt.{store_in, part_term};
ghost use Rattle.occurs_check.specs.TermVids.{vid_kind, vid_number};
ghost use Rattle.relation_reference.specs.Generalises.{side_of, parts_side, AreClear, IsClearFor, TellsClear};
ghost use Rattle.relation_reference.specs.Generalises.{HasObstacle, IsLeftAlias, IsSeenTree, TellsGivesWay};

use crate::context::RefCtxt;
use occurs_check::fates::{Fate, TargetOf, fate_of};
use relation_semantics::relate::StructurallyRelateAliases;
use relation_terms::terms::parts::{part, parts_count};
use relation_terms::terms::{Interner, OutOfMemory, Part, PartOf, Ty, TyKey, TyKind, Variance};
use std::collections::HashSet;
use std::hash::BuildHasherDefault;
use term_enums::hashing::KeyHasher;

/// The types that were found clear for a variable: at every variance, on every side of aliases.
pub type ClearTypes<X> = HashSet<TyKey<X>, BuildHasherDefault<KeyHasher>>;

// Whether a term is an alias type, where aliases are left to goals.
#[inline(always)]
fn is_left_alias<I: Interner>(cx: &I, term: &PartOf<I>, aliases: StructurallyRelateAliases) -> bool
    requires { IsTrue (known (part_tree (I.meaning cx.now) term.now)) }
    ensures is { IsTrue result → IsLeftAlias aliases (part_tree (I.meaning cx.now) term.now) }
    ensures is_not { IsFalse result → IsSeenTree aliases (part_tree (I.meaning cx.now) term.now) }
{
    match aliases {
        StructurallyRelateAliases::Yes => false,
        StructurallyRelateAliases::No => match term {
            Part::Ty(ty) => matches!(cx.ty_kind(ty), TyKind::Alias(_)),
            _ => false,
        },
    }
}

// Whether the parts of a term stand inside an alias that is left to a goal, the term doing so or not.
#[inline(always)]
pub(crate) fn parts_inside<I: Interner>(
    cx: &I,
    term: &PartOf<I>,
    inside: bool,
    aliases: StructurallyRelateAliases,
) -> bool
    requires { IsTrue (known (part_tree (I.meaning cx.now) term.now)) }
    ensures { side_of result ≡ parts_side aliases (side_of inside) (part_tree (I.meaning cx.now) term.now) }
{
    inside || is_left_alias(cx, term, aliases)
}

// Whether a type was found clear before.
fn was_clear<I: Interner>(
    _cx: &I,
    ty: &Ty<I>,
    _target: &TargetOf<I>,
    clear: &ClearTypes<I::Key>,
) -> bool
    requires known { IsTrue (known ((I.meaning _cx.now).ty ty.now)) }
    requires clear { AreClear ⟦<TyKey<I::Key> as PartialEq>⟧.eq (I.meaning _cx.now) (vid_kind _target.now.vid)
        (vid_number _target.now.vid) _target.now.universe.0 clear.now }
    ensures { IsTrue result → IsClearFor (vid_kind _target.now.vid) (vid_number _target.now.vid) _target.now.universe.0
        ((I.meaning _cx.now).ty ty.now) }
{
    clear.contains(ty)
}

// Keeps that a type is clear.
fn keep_clear<I: Interner>(
    _cx: &I,
    ty: &Ty<I>,
    _target: &TargetOf<I>,
    clear: &mut ClearTypes<I::Key>,
) -> Result<(), OutOfMemory>
    requires known { IsTrue (known ((I.meaning _cx.now).ty ty.now)) }
    requires is_clear { IsClearFor (vid_kind _target.now.vid) (vid_number _target.now.vid) _target.now.universe.0
        ((I.meaning _cx.now).ty ty.now) }
    requires clear { AreClear ⟦<TyKey<I::Key> as PartialEq>⟧.eq (I.meaning _cx.now) (vid_kind _target.now.vid)
        (vid_number _target.now.vid) _target.now.universe.0 clear.old }
    ensures { OnOk result (AreClear ⟦<TyKey<I::Key> as PartialEq>⟧.eq (I.meaning _cx.now) (vid_kind _target.now.vid)
        (vid_number _target.now.vid) _target.now.universe.0 clear.new) }
{
    clear.insert(*ty)?;
    Ok(())
}

impl<I: Interner> RefCtxt<I> {
    // Whether a term is the target's variable, or a placeholder that this can't name.
    fn is_obstacle(&self, term: &PartOf<I>, target: &TargetOf<I>) -> bool
        requires lawful { IsLawful (I.meaning self.now.interner) self.now.inner }
        requires term_known { IsTrue (known (part_tree (I.meaning self.now.interner) term.now)) }
        requires term_in { InContext (store_in I.meaning self.now) (part_term I.meaning self.now term.now) }
        ensures is { IsTrue result → HasObstacle (vid_kind target.now.vid) (vid_number target.now.vid)
            target.now.universe.0 (part_tree (I.meaning self.now.interner) term.now) }
        ensures is_not { IsFalse result → (l : _) → part_tree (I.meaning self.now.interner) term.now ≡ leaf l →
            IsClearFor (vid_kind target.now.vid) (vid_number target.now.vid) target.now.universe.0 (leaf l) }
    {
        match fate_of(
            &self.interner,
            &self.inner,
            term,
            Variance::Invariant,
            target,
        ) {
            Fate::Cycle => true,
            Fate::Beyond => true,
            Fate::ByParts => false,
            Fate::GivesWay => false,
        }
    }

    // Whether no obstacle for a target stands in a term. A type that was found clear before is not gone through again.
    #[cycle(clearing)]
    fn is_clear(
        &self,
        term: &PartOf<I>,
        target: &TargetOf<I>,
        clear: &mut ClearTypes<I::Key>,
    ) -> Result<bool, OutOfMemory>
        requires lawful { IsLawful (I.meaning self.now.interner) self.now.inner }
        requires term_known { IsTrue (known (part_tree (I.meaning self.now.interner) term.now)) }
        requires term_in { InContext (store_in I.meaning self.now) (part_term I.meaning self.now term.now) }
        requires clear { AreClear ⟦<TyKey<I::Key> as PartialEq>⟧.eq (I.meaning self.now.interner)
            (vid_kind target.now.vid) (vid_number target.now.vid) target.now.universe.0 clear.old }
        ensures tells { IfOk result (TellsClear (vid_kind target.now.vid) (vid_number target.now.vid)
            target.now.universe.0 (part_tree (I.meaning self.now.interner) term.now)) }
        ensures clear { OnOk result (AreClear ⟦<TyKey<I::Key> as PartialEq>⟧.eq (I.meaning self.now.interner)
            (vid_kind target.now.vid) (vid_number target.now.vid) target.now.universe.0 clear.new) }
    {
        let Part::Ty(ty) = term else {
            return self.are_parts_clear(term, target, clear);
        };
        if was_clear(&self.interner, ty, target, clear) {
            return Ok(true);
        }
        if !self.are_parts_clear(term, target, clear)? {
            return Ok(false);
        }
        keep_clear(&self.interner, ty, target, clear)?;
        Ok(true)
    }

    // The same of a term that was not found clear yet.
    #[cycle(clearing)]
    fn are_parts_clear(
        &self,
        term: &PartOf<I>,
        target: &TargetOf<I>,
        clear: &mut ClearTypes<I::Key>,
    ) -> Result<bool, OutOfMemory>
        requires lawful { IsLawful (I.meaning self.now.interner) self.now.inner }
        requires term_known { IsTrue (known (part_tree (I.meaning self.now.interner) term.now)) }
        requires term_in { InContext (store_in I.meaning self.now) (part_term I.meaning self.now term.now) }
        requires clear { AreClear ⟦<TyKey<I::Key> as PartialEq>⟧.eq (I.meaning self.now.interner)
            (vid_kind target.now.vid) (vid_number target.now.vid) target.now.universe.0 clear.old }
        ensures tells { IfOk result (TellsClear (vid_kind target.now.vid) (vid_number target.now.vid)
            target.now.universe.0 (part_tree (I.meaning self.now.interner) term.now)) }
        ensures clear { OnOk result (AreClear ⟦<TyKey<I::Key> as PartialEq>⟧.eq (I.meaning self.now.interner)
            (vid_kind target.now.vid) (vid_number target.now.vid) target.now.universe.0 clear.new) }
    {
        if self.is_obstacle(term, target) {
            return Ok(false);
        }
        for i in 0..parts_count(&self.interner, term) {
            let next = part(&self.interner, term, i);
            if !self.is_clear(&next, target, clear)? {
                return Ok(false);
            }
        }
        Ok(true)
    }

    // Whether a term is an alias that gives way: it is left to a goal and stands in no other, and an obstacle stands in
    // it. Else it may be gone into.
    #[inline(always)]
    pub(crate) fn alias_gives_way(
        &self,
        term: &PartOf<I>,
        inside: bool,
        target: &TargetOf<I>,
        clear: &mut ClearTypes<I::Key>,
    ) -> Result<bool, OutOfMemory>
        requires lawful { IsLawful (I.meaning self.now.interner) self.now.inner }
        requires term_known { IsTrue (known (part_tree (I.meaning self.now.interner) term.now)) }
        requires term_in { InContext (store_in I.meaning self.now) (part_term I.meaning self.now term.now) }
        requires clear { AreClear ⟦<TyKey<I::Key> as PartialEq>⟧.eq (I.meaning self.now.interner)
            (vid_kind target.now.vid) (vid_number target.now.vid) target.now.universe.0 clear.old }
        ensures tells { IfOk result (TellsGivesWay target.now.aliases (vid_kind target.now.vid)
            (vid_number target.now.vid) target.now.universe.0 (side_of inside)
            (part_tree (I.meaning self.now.interner) term.now)) }
        ensures clear { OnOk result (AreClear ⟦<TyKey<I::Key> as PartialEq>⟧.eq (I.meaning self.now.interner)
            (vid_kind target.now.vid) (vid_number target.now.vid) target.now.universe.0 clear.new) }
    {
        if inside {
            return Ok(false);
        }
        if !is_left_alias(&self.interner, term, target.aliases) {
            return Ok(false);
        }
        Ok(!self.is_clear(term, target, clear)?)
    }
}
