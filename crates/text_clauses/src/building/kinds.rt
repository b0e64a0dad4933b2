//! The form of what a predicate says, by the keys of its parts.
ghost use Rattle.std.specs.Prelude.{◌≡◌, IfSome};
ghost use Rattle.relation_terms.specs.Meaning.{Extends};
ghost use Rattle.text_terms.specs.Built.{AreKnown};
ghost use Rattle.text_clauses.specs.Made.{IsDeclared, ClaimsOf, SaysPlainly, MakesTraitRef, MakesImplemented};
ghost use Rattle.text_clauses.specs.Made.{MakesNameless, MakesKind};

use relation_terms::predicate::{
    AliasTerm, AliasTermKind, ClauseKind, HostEffectPredicate, OutlivesPredicate,
    ProjectionPredicate, TraitPredicate, TraitRef,
};
use relation_terms::terms::{
    GenericArg, Interner, Keys, PredicatePolarity, TraitAssocConstId, TraitAssocTyId, TraitId,
};
use text_reading::naming::{Parts, Says};
use text_reading::reading::{Claim, ItemSort};
use text_terms::building::{const_at, key_at, keys_at, name_at, region_at, term_of, ty_at};

// The form of a clause of an interner, without its binder.
pub(super) type KindOf<I> = ClauseKind<<I as Keys>::Key, <I as Keys>::Id, <I as Keys>::Name>;

// A trait over the arguments of those numbers.
fn trait_ref_of<I: Interner>(
    cx: &mut I,
    ids: &[I::Id],
    numbers: &[usize],
    built: &[Option<GenericArg<I>>],
    item: usize,
    args: Parts,
) -> Option<TraitRef<I::Key, I::Id>>
    requires { AreKnown (I.meaning cx.old) built.now }
    ensures grown { Extends (I.meaning cx.old) (I.meaning cx.new) }
    ensures made { MakesTraitRef I.meaning cx.old cx.new ids.now numbers.now built.now item args result }
{
    let id = name_at(ids, item)?;
    let keys = keys_at(cx.alloc(), numbers, built, args)?;
    let Ok(args) = cx.mk_args(&keys) else {
        return None;
    };
    let def_id = TraitId(id);
    Some(TraitRef { def_id, args })
}

// The trait that a predicate claims to be implemented, if it does.
pub(super) fn make_implemented<I: Interner>(
    cx: &mut I,
    ids: &[I::Id],
    numbers: &[usize],
    built: &[Option<GenericArg<I>>],
    says: Says,
) -> Option<TraitRef<I::Key, I::Id>>
    requires { AreKnown (I.meaning cx.old) built.now }
    ensures grown { Extends (I.meaning cx.old) (I.meaning cx.new) }
    ensures made { MakesImplemented I.meaning cx.old cx.new ids.now numbers.now built.now says result }
{
    match says {
        Says::Claims(Claim::Trait(PredicatePolarity::Positive), item, args) => {
            trait_ref_of(cx, ids, numbers, built, item, args)
        }
        _ => None,
    }
}

// The form of a claim of a trait.
fn claim_of<X: Copy, D: Copy, N: Copy>(
    claim: Claim,
    trait_ref: TraitRef<X, D>,
) -> ClauseKind<X, D, N>
    ensures { ClaimsOf claim trait_ref result }
{
    match claim {
        Claim::Trait(polarity) => ClauseKind::Trait(TraitPredicate {
            trait_ref,
            polarity,
        }),
        Claim::HostEffect(constness) => ClauseKind::HostEffect(HostEffectPredicate {
            trait_ref,
            constness,
        }),
    }
}

// The form of a predicate that claims something of a trait.
fn make_claim<I: Interner>(
    cx: &mut I,
    ids: &[I::Id],
    numbers: &[usize],
    built: &[Option<GenericArg<I>>],
    says: Says,
) -> Option<KindOf<I>>
    requires { AreKnown (I.meaning cx.old) built.now }
    ensures grown { Extends (I.meaning cx.old) (I.meaning cx.new) }
    ensures made { MakesNameless I.meaning cx.old cx.new ids.now numbers.now built.now says result }
{
    match says {
        Says::Claims(claim, item, args) => {
            let trait_ref = trait_ref_of(cx, ids, numbers, built, item, args)?;
            Some(claim_of(claim, trait_ref))
        }
        _ => None,
    }
}

// The kind of an alias that a trait declares. Another item has none.
fn declared_kind<D: Copy>(sort: ItemSort, id: D) -> Option<AliasTermKind<D>>
    ensures { IfSome result (IsDeclared sort id) }
{
    match sort {
        ItemSort::AssocTy => Some(AliasTermKind::ProjectionTy {
            def_id: TraitAssocTyId(id),
        }),
        ItemSort::AssocConst => Some(AliasTermKind::ProjectionConst {
            def_id: TraitAssocConstId(id),
        }),
        _ => None,
    }
}

// The form of a predicate that says what a trait's type or constant comes to.
fn make_projection<I: Interner>(
    cx: &mut I,
    ids: &[I::Id],
    numbers: &[usize],
    built: &[Option<GenericArg<I>>],
    says: Says,
) -> Option<KindOf<I>>
    requires { AreKnown (I.meaning cx.old) built.now }
    ensures grown { Extends (I.meaning cx.old) (I.meaning cx.new) }
    ensures made { MakesNameless I.meaning cx.old cx.new ids.now numbers.now built.now says result }
{
    match says {
        Says::ComesTo(sort, item, args, key) => {
            let id = name_at(ids, item)?;
            let kind = declared_kind(sort, id)?;
            let key = key_at(built, key)?;
            let term = term_of(&key)?;
            let keys = keys_at(cx.alloc(), numbers, built, args)?;
            let Ok(args) = cx.mk_args(&keys) else {
                return None;
            };
            let projection_term = AliasTerm { kind, args };
            Some(ClauseKind::Projection(ProjectionPredicate {
                projection_term,
                term,
            }))
        }
        _ => None,
    }
}

// The form of a predicate whose parts are terms alone. Another has none.
fn plain_kind<I: Interner>(
    names: &[I::Name],
    built: &[Option<GenericArg<I>>],
    says: Says,
) -> Option<KindOf<I>>
    ensures { SaysPlainly I.Id names.now built.now says result }
{
    match says {
        Says::RegionOutlives(longer, shorter) => {
            let longer = region_at(built, longer)?;
            let shorter = region_at(built, shorter)?;
            Some(ClauseKind::RegionOutlives(OutlivesPredicate(longer, shorter)))
        }
        Says::TypeOutlives(ty, region) => {
            let ty = ty_at(built, ty)?;
            let region = region_at(built, region)?;
            Some(ClauseKind::TypeOutlives(OutlivesPredicate(ty, region)))
        }
        Says::WellFormed(key) => {
            let key = key_at(built, key)?;
            let term = term_of(&key)?;
            Some(ClauseKind::WellFormed(term))
        }
        Says::ConstEvaluatable(constant) => {
            let constant = const_at(built, constant)?;
            Some(ClauseKind::ConstEvaluatable(constant))
        }
        Says::ConstArgHasType(constant, ty) => {
            let constant = const_at(built, constant)?;
            let ty = ty_at(built, ty)?;
            Some(ClauseKind::ConstArgHasType(constant, ty))
        }
        Says::UnstableFeature(name) => {
            let name = name_at(names, name)?;
            Some(ClauseKind::UnstableFeature(name))
        }
        _ => None,
    }
}

// The form of what a predicate says. There is none where a growth was refused, or there is no key of a part.
pub(super) fn make_kind<I: Interner>(
    cx: &mut I,
    ids: &[I::Id],
    names: &[I::Name],
    numbers: &[usize],
    built: &[Option<GenericArg<I>>],
    says: Says,
) -> Option<KindOf<I>>
    requires { AreKnown (I.meaning cx.old) built.now }
    ensures grown { Extends (I.meaning cx.old) (I.meaning cx.new) }
    ensures made { MakesKind I.meaning cx.old cx.new ids.now names.now numbers.now built.now says result }
{
    match says {
        Says::Claims(..) => make_claim(cx, ids, numbers, built, says),
        Says::ComesTo(..) => make_projection(cx, ids, numbers, built, says),
        _ => plain_kind::<I>(names, built, says),
    }
}
