//! Generalising what a variable is bound to: new variables take the places of what the variable can't name, of what may
//! still vary, and of aliases in which an obstacle stands. A type that was met before, at the same variance and on the
//! same side of aliases, is not gone through again.
ghost use Rattle.std.specs.Prelude.{◌≡◌, ◌≤◌, ℕ, IsTrue, IfOk, IfSome, IfNone, OnOk, OnErr};
ghost use Rattle.std.specs.Prelude.{List, ◌∷◌, Contains, Some};
ghost use Rattle.relation_terms.specs.Heads.{VarKind, variable, type_sort, type_var};
ghost use Rattle.relation_terms.specs.Trees.{Tree, leaf, known};
ghost use Rattle.relation_terms.specs.Meaning.{Extends};
ghost use Rattle.relation_terms.specs.Parts.{part_tree, part_sort};
ghost use Rattle.relation_semantics.specs.Stores.{InContext};
ghost use Rattle.relation_semantics.specs.Steps.{MakesVariable};
ghost use Rattle.relation_semantics.specs.Generalising.{Met, any_part, new_part, MakesUnbound};
ghost use Rattle.variable_tables.specs.Tables.{IsLawful};
ghost use Rattle.relation_semantics.specs.ContextCalls.{MarksNew};
ghost use Rattle.relation_reference.specs.RefCtxt.{store_in, context_in, part_term};
ghost use Rattle.occurs_check.specs.TermVids.{vid_kind, vid_number, vid_universe};
ghost use Rattle.relation_reference.specs.Generalises.{side_of, met_at, IsSure, Keeps, Generalises};
ghost use Rattle.occurs_check.specs.Fates.{new_kind, IsFate};
ghost use Rattle.relation_reference.specs.Generalises.{AreClear, MayGoInto, MarksFrom, GeneralisesFor};
ghost use Rattle.occurs_check.specs.declared.fates.Fate.TheVariants.{ByParts};

use crate::context::RefCtxt;
use crate::context::clearing::{ClearTypes, parts_inside};
use crate::context::varying::variance_of;
use delayed_map::widening::widen_map;
use occurs_check::fates::{Fate, TargetOf, fate_of};
use occurs_check::term_vid::{TermVid, variable_of};
use relation_folds::error::{RelateFault, RelateFaultOf, TypeError};
use relation_folds::fold::first_members;
use relation_terms::terms::parts::{
    expect_ty, is_same, member, member_count, parts_of, with_parts,
};
use relation_terms::terms::{
    Interner, OutOfMemory, Part, PartOf, Ty, TyKey, TyVid, UniverseIndex, Variance,
};
use std::collections::{HashMap, HashSet};
use std::hash::BuildHasherDefault;
use term_enums::hashing::KeyHasher;

/// A type as it is looked for: whether it stands inside an alias that is left to a goal, the variance at which it
/// stands, and its key.
#[derive(Clone, Copy, PartialEq, Eq)]
#[derive_where(Hash; X)]
pub struct MetKey<X> {
    // Its key alone is hashed: it tells most types apart.
    #[derive_where(skip(Hash))]
    pub inside: bool,
    #[derive_where(skip(Hash))]
    pub variance: Variance,
    pub ty: TyKey<X>,
}

/// What types that were met became.
pub type MetTypes<X> = HashMap<MetKey<X>, TyKey<X>, BuildHasherDefault<KeyHasher>>;

// What the type became at the variance on the side, if it was met before.
#[inline(always)]
fn recall_type<I: Interner>(
    _cx: &I,
    ty: &Ty<I>,
    inside: bool,
    variance: Variance,
    met: &MetTypes<I::Key>,
) -> Option<Ty<I>>
    requires known { IsTrue (known ((I.meaning _cx.now).ty ty.now)) }
    requires sure { IsSure ⟦<MetKey<I::Key> as PartialEq>⟧.eq (I.meaning _cx.now) met.now }
    ensures sure { IfSome result (λ x. IsTrue (known ((I.meaning _cx.now).ty x))) }
    ensures met { IfSome result (λ x. (es : List Met) →
        Keeps ⟦<MetKey<I::Key> as PartialEq>⟧.eq (I.meaning _cx.now) met.now es →
        Contains es (met_at (side_of inside) variance ((I.meaning _cx.now).ty ty.now) ((I.meaning _cx.now).ty x))) }
    ensures not_met { IfNone result ((es : List Met) →
        Keeps ⟦<MetKey<I::Key> as PartialEq>⟧.eq (I.meaning _cx.now) met.now es →
        (x : Tree) → Contains es (met_at (side_of inside) variance ((I.meaning _cx.now).ty ty.now) x) → ⊥) }
{
    let key = MetKey {
        inside,
        variance,
        ty: *ty,
    };
    met.get(&key).copied()
}

// Keeps what the type became at the variance on the side.
#[inline(always)]
fn keep_type<I: Interner>(
    _cx: &I,
    ty: &Ty<I>,
    inside: bool,
    variance: Variance,
    became: Ty<I>,
    met: &mut MetTypes<I::Key>,
) -> Result<(), OutOfMemory>
    requires ty_known { IsTrue (known ((I.meaning _cx.now).ty ty.now)) }
    requires became_known { IsTrue (known ((I.meaning _cx.now).ty became)) }
    requires sure { IsSure ⟦<MetKey<I::Key> as PartialEq>⟧.eq (I.meaning _cx.now) met.old }
    ensures sure { OnOk result (IsSure ⟦<MetKey<I::Key> as PartialEq>⟧.eq (I.meaning _cx.now) met.new) }
    ensures keeps { OnOk result ((es : List Met) →
        Keeps ⟦<MetKey<I::Key> as PartialEq>⟧.eq (I.meaning _cx.now) met.old es →
        ((x : Tree) → Contains es (met_at (side_of inside) variance ((I.meaning _cx.now).ty ty.now) x) → ⊥) →
        Keeps ⟦<MetKey<I::Key> as PartialEq>⟧.eq (I.meaning _cx.now) met.new
        (met_at (side_of inside) variance ((I.meaning _cx.now).ty ty.now) ((I.meaning _cx.now).ty became) ∷ es)) }
{
    let key = MetKey {
        inside,
        variance,
        ty: *ty,
    };
    met.insert(key, became)?;
    let _ = widen_map(met);
    Ok(())
}

// The type variable that a part is.
fn type_variable<I: Interner>(cx: &I, term: &PartOf<I>) -> TyVid
    requires known { IsTrue (known (part_tree (I.meaning cx.now) term.now)) }
    requires varies { (n : ℕ) × (part_tree (I.meaning cx.now) term.now ≡ leaf (variable type_var n)) }
    ensures { part_tree (I.meaning cx.now) term.now ≡ leaf (variable type_var result.0) }
{
    match variable_of(cx, term) {
        Some(TermVid::Ty(vid)) => vid,
        Some(TermVid::Const(_)) => unreachable!(),
        None => unreachable!(),
    }
}

impl<I: Interner> RefCtxt<I> {
    // A new variable for a part, in a universe. One for a type variable is marked as related to it.
    fn next_for(
        &mut self,
        term: &PartOf<I>,
        universe: UniverseIndex,
    ) -> Result<PartOf<I>, OutOfMemory>
        requires lawful { IsLawful (I.meaning self.old.interner) self.old.inner }
        requires below { universe.0 ≤ self.old.inner.universe.0 }
        requires has { (j : VarKind) × (new_kind term.now ≡ Some j) }
        requires term_known { IsTrue (known (part_tree (I.meaning self.old.interner) term.now)) }
        requires term_in { InContext (store_in I.meaning self.old) (part_term I.meaning self.old term.now) }
        requires varies { new_kind term.now ≡ Some type_var →
            (n : ℕ) × (part_tree (I.meaning self.old.interner) term.now ≡ leaf (variable type_var n)) }
        ensures lawful { IsLawful (I.meaning self.new.interner) self.new.inner }
        ensures grown { Extends (I.meaning self.old.interner) (I.meaning self.new.interner) }
        ensures sure { IfOk result (λ x. IsTrue (known (part_tree (I.meaning self.new.interner) x))) }
        ensures sort { IfOk result (λ x. part_sort x ≡ part_sort term.now) }
        ensures makes { IfOk result (λ x. (j : VarKind) → new_kind term.now ≡ Some j → (n : ℕ) ×
            MakesVariable (store_in I.meaning self.old) (store_in I.meaning self.new) j n universe.0 ×
            (part_tree (I.meaning self.new.interner) x ≡ leaf (variable j n))) }
        ensures rest { MarksFrom I.meaning self.old self.new (part_term I.meaning self.old term.now) }
        ensures refused { OnErr result (store_in I.meaning self.new ≡ store_in I.meaning self.old) }
    {
        match term {
            Part::Ty(_) => {
                let of = type_variable(&self.interner, term);
                Ok(Part::Ty(self.next_related_ty_var(of, universe)?))
            }
            Part::Const(_) => Ok(Part::Const(self.next_const_var_in(universe)?)),
            Part::Region(_) => Ok(Part::Region(self.next_region_var_in(universe)?)),
            _ => unreachable!(),
        }
    }

    // A new type variable in the place of an alias, in a universe. It is marked as related to none.
    fn next_alias_var(&mut self, universe: UniverseIndex) -> Result<PartOf<I>, OutOfMemory>
        requires lawful { IsLawful (I.meaning self.old.interner) self.old.inner }
        requires below { universe.0 ≤ self.old.inner.universe.0 }
        ensures lawful { IsLawful (I.meaning self.new.interner) self.new.inner }
        ensures grown { Extends (I.meaning self.old.interner) (I.meaning self.new.interner) }
        ensures sure { IfOk result (λ x. IsTrue (known (part_tree (I.meaning self.new.interner) x))) }
        ensures sort { IfOk result (λ x. part_sort x ≡ type_sort) }
        ensures makes { IfOk result (λ x. (n : ℕ) ×
            MakesVariable (store_in I.meaning self.old) (store_in I.meaning self.new) type_var n universe.0 ×
            (part_tree (I.meaning self.new.interner) x ≡ leaf (variable type_var n))) }
        ensures rest { (t : Tree) → MarksFrom I.meaning self.old self.new t }
        ensures refused { OnErr result (store_in I.meaning self.new ≡ store_in I.meaning self.old) }
    {
        Ok(Part::Ty(self.next_ty_var_in(universe)?))
    }

    // The term as a target is bound to it, on a side of aliases at a variance. A type that was met before becomes what
    // it became then.
    #[cycle(generalise)]
    #[inline(always)]
    fn generalise_part(
        &mut self,
        term: &PartOf<I>,
        inside: bool,
        variance: Variance,
        target: &TargetOf<I>,
        met: &mut MetTypes<I::Key>,
        clear: &mut ClearTypes<I::Key>,
    ) -> Result<PartOf<I>, RelateFaultOf<I>>
        requires lawful { IsLawful (I.meaning self.old.interner) self.old.inner }
        requires below { target.now.universe.0 ≤ self.old.inner.universe.0 }
        requires term_known { IsTrue (known (part_tree (I.meaning self.old.interner) term.now)) }
        requires term_in { InContext (store_in I.meaning self.old) (part_term I.meaning self.old term.now) }
        requires sure { IsSure ⟦<MetKey<I::Key> as PartialEq>⟧.eq (I.meaning self.old.interner) met.old }
        requires clear { AreClear ⟦<TyKey<I::Key> as PartialEq>⟧.eq (I.meaning self.old.interner)
            (vid_kind target.now.vid) (vid_number target.now.vid) target.now.universe.0 clear.old }
        ensures { Generalises I.meaning ⟦<MetKey<I::Key> as PartialEq>⟧.eq ⟦<TyKey<I::Key> as PartialEq>⟧.eq
            self.old self.new target.now.aliases (vid_kind target.now.vid) (vid_number target.now.vid)
            target.now.universe.0 target.now.cyclic (any_part (side_of inside) variance) met.old met.new clear.new
            term.now result }
    {
        let Part::Ty(ty) = term else {
            return self.generalise_new(term, inside, variance, target, met, clear);
        };
        if let Some(became) = recall_type(&self.interner, ty, inside, variance, met) {
            return Ok(Part::Ty(became));
        }
        let became = self.generalise_new(term, inside, variance, target, met, clear)?;
        keep_type(
            &self.interner,
            ty,
            inside,
            variance,
            expect_ty(&became),
            met,
        )?;
        Ok(became)
    }

    // The same of a term that was not met.
    #[cycle(generalise)]
    fn generalise_new(
        &mut self,
        term: &PartOf<I>,
        inside: bool,
        variance: Variance,
        target: &TargetOf<I>,
        met: &mut MetTypes<I::Key>,
        clear: &mut ClearTypes<I::Key>,
    ) -> Result<PartOf<I>, RelateFaultOf<I>>
        requires lawful { IsLawful (I.meaning self.old.interner) self.old.inner }
        requires below { target.now.universe.0 ≤ self.old.inner.universe.0 }
        requires term_known { IsTrue (known (part_tree (I.meaning self.old.interner) term.now)) }
        requires term_in { InContext (store_in I.meaning self.old) (part_term I.meaning self.old term.now) }
        requires sure { IsSure ⟦<MetKey<I::Key> as PartialEq>⟧.eq (I.meaning self.old.interner) met.old }
        requires clear { AreClear ⟦<TyKey<I::Key> as PartialEq>⟧.eq (I.meaning self.old.interner)
            (vid_kind target.now.vid) (vid_number target.now.vid) target.now.universe.0 clear.old }
        ensures { Generalises I.meaning ⟦<MetKey<I::Key> as PartialEq>⟧.eq ⟦<TyKey<I::Key> as PartialEq>⟧.eq
            self.old self.new target.now.aliases (vid_kind target.now.vid) (vid_number target.now.vid)
            target.now.universe.0 target.now.cyclic (new_part (side_of inside) variance) met.old met.new clear.new
            term.now result }
    {
        match fate_of(&self.interner, &self.inner, term, variance, target) {
            Fate::Cycle => Err(RelateFault::Unrelated(target.cyclic)),
            Fate::Beyond => Err(RelateFault::Unrelated(TypeError::Mismatch)),
            Fate::GivesWay => Ok(self.next_for(term, target.universe)?),
            Fate::ByParts => {
                if self.alias_gives_way(term, inside, target, clear)? {
                    return Ok(self.next_alias_var(target.universe)?);
                }
                self.generalise_parts(term, inside, variance, target, met, clear)
            }
        }
    }

    // The same of a term that stays as a form. Where its parts become what they are, nothing is made.
    #[cycle(generalise)]
    #[inline(always)]
    fn generalise_parts(
        &mut self,
        term: &PartOf<I>,
        inside: bool,
        variance: Variance,
        target: &TargetOf<I>,
        met: &mut MetTypes<I::Key>,
        clear: &mut ClearTypes<I::Key>,
    ) -> Result<PartOf<I>, RelateFaultOf<I>>
        requires lawful { IsLawful (I.meaning self.old.interner) self.old.inner }
        requires below { target.now.universe.0 ≤ self.old.inner.universe.0 }
        requires term_known { IsTrue (known (part_tree (I.meaning self.old.interner) term.now)) }
        requires term_in { InContext (store_in I.meaning self.old) (part_term I.meaning self.old term.now) }
        requires sure { IsSure ⟦<MetKey<I::Key> as PartialEq>⟧.eq (I.meaning self.old.interner) met.old }
        requires clear { AreClear ⟦<TyKey<I::Key> as PartialEq>⟧.eq (I.meaning self.old.interner)
            (vid_kind target.now.vid) (vid_number target.now.vid) target.now.universe.0 clear.old }
        requires stays { IsFate (store_in I.meaning self.old) (vid_kind target.now.vid) (vid_number target.now.vid)
            target.now.universe.0 variance (part_tree (I.meaning self.old.interner) term.now)
            (new_kind term.now) ByParts }
        requires goes { MayGoInto target.now.aliases (vid_kind target.now.vid) (vid_number target.now.vid)
            target.now.universe.0 (side_of inside) (part_tree (I.meaning self.old.interner) term.now) }
        ensures { Generalises I.meaning ⟦<MetKey<I::Key> as PartialEq>⟧.eq ⟦<TyKey<I::Key> as PartialEq>⟧.eq
            self.old self.new target.now.aliases (vid_kind target.now.vid) (vid_number target.now.vid)
            target.now.universe.0 target.now.cyclic (new_part (side_of inside) variance) met.old met.new clear.new
            term.now result }
    {
        let within = parts_inside(&self.interner, term, inside, target.aliases);
        let old = parts_of(&self.interner, term);
        let mut parts = Vec::new(self.interner.alloc());
        let mut differs = false;
        for i in 0..member_count(&self.interner, &old) {
            let next = member(&self.interner, &old, i);
            let at = variance_of(&self.interner, term, i, variance);
            let became = self.generalise_part(&next, within, at, target, met, clear)?;
            if differs {
                parts.push(became)?;
            } else if !is_same(&self.interner, &became, &next) {
                parts = first_members(&self.interner, &old, i)?;
                parts.push(became)?;
                differs = true;
            }
        }
        if differs {
            Ok(with_parts(&mut self.interner, term, parts.as_slice())?)
        } else {
            Ok(*term)
        }
    }

    // What a target is bound to for its source, at a variance. The source is what it comes to.
    pub(crate) fn generalise(
        &mut self,
        source: &PartOf<I>,
        variance: Variance,
        target: &TargetOf<I>,
    ) -> Result<PartOf<I>, RelateFaultOf<I>>
        requires lawful { IsLawful (I.meaning self.old.interner) self.old.inner }
        requires universe { vid_universe (store_in I.meaning self.old) target.now.vid ≡ target.now.universe.0 }
        requires source_known { IsTrue (known (part_tree (I.meaning self.old.interner) source.now)) }
        requires source_in { InContext (store_in I.meaning self.old) (part_term I.meaning self.old source.now) }
        ensures lawful { IsLawful (I.meaning self.new.interner) self.new.inner }
        ensures grown { Extends (I.meaning self.old.interner) (I.meaning self.new.interner) }
        ensures makes { MakesUnbound target.now.universe.0 (store_in I.meaning self.old) (store_in I.meaning self.new) }
        ensures rest { MarksNew (context_in I.meaning self.old) (context_in I.meaning self.new) }
        ensures generalised { GeneralisesFor I.meaning self.old self.new target.now variance source.now result }
    {
        let mut met = HashMap::with_hasher(self.interner.alloc(), BuildHasherDefault::new());
        let mut clear = HashSet::with_hasher(self.interner.alloc(), BuildHasherDefault::new());
        self.generalise_part(source, false, variance, target, &mut met, &mut clear)
    }
}
