//! Types, and lists of arguments, related through the relation of terms without variables.
ghost use Rattle.std.specs.Prelude.{◌≡◌, ◌≢◌, [], IfOk};
ghost use Rattle.relation_terms.specs.Heads.{adt};
ghost use Rattle.relation_terms.specs.Trees.{node, nil, cons, count};
ghost use Rattle.relation_terms.specs.Meaning.{Extends, kind_tree};
ghost use Rattle.term_enums.specs.declared.Variance.TheVariants.{Bivariant};
ghost use Rattle.relation_semantics.specs.Lawful.{Asked};
ghost use Rattle.plain_relation.specs.Concrete.{IsConcrete};
ghost use Rattle.plain_relation.specs.Plain.{plain_state, plain_manner};

use plain_relation::{PlainRelation, constraints_of};
use reference_interner::{
    DefKind, GenericParam, GenericParamKind, ItemId, ItemKind, RefInterner, SymbolId,
};
use relation_folds::error::RelateResult;
use relation_terms::predicate::{OutlivesPredicate, RegionConstraint};
use relation_terms::terms::{
    DefId, EarlyParamRegion, GenericArgKind, GenericArgs, Interner, ItemOf, Mutability,
    OutOfMemory, Region, RegionKey, RegionKind, Ty, TyForm, TyKey, TyKind, UintTy, Variance,
};
use std::alloc::Global;
use std::test::Fail;
use type_relations::relate::relate_args_with_variances;

// The region parameter of an index.
fn make_region<I: Interner>(
    cx: &mut I,
    index: u32,
    name: &I::Name,
) -> Result<Region<I>, OutOfMemory>
    ensures grown { Extends (I.meaning cx.old) (I.meaning cx.new) }
    ensures concrete { IfOk result (λ k. IsConcrete ((I.meaning cx.new).region k)) }
{
    let name = *name;
    cx.mk_region(RegionKind::ReEarlyParam(EarlyParamRegion { index, name }))
}

// The type of a form.
#[tactic(auto, using(plain_relation::proofs::Concrete::concrete_known, plain_relation::proofs::Concrete::concrete_as))]
fn make_ty<I: Interner>(cx: &mut I, kind: TyForm<I>) -> Result<Ty<I>, OutOfMemory>
    requires { IsConcrete (kind_tree (I.meaning cx.old) kind) }
    ensures grown { Extends (I.meaning cx.old) (I.meaning cx.new) }
    ensures concrete { IfOk result (λ k. IsConcrete ((I.meaning cx.new).ty k)) }
{
    cx.mk_ty(kind)
}

// The type `u8`.
pub(super) fn make_byte<I: Interner>(cx: &mut I) -> Result<Ty<I>, OutOfMemory>
    ensures grown { Extends (I.meaning cx.old) (I.meaning cx.new) }
    ensures concrete { IfOk result (λ k. IsConcrete ((I.meaning cx.new).ty k)) }
{
    make_ty(cx, TyKind::Uint(UintTy::U8))
}

// The type `&'r u8`.
#[tactic(auto, using(relation_terms::proofs::Stays::extends_on, plain_relation::proofs::Concrete::region_concrete))]
fn make_ref<I: Interner>(cx: &mut I, region: &Region<I>) -> Result<Ty<I>, OutOfMemory>
    requires { IsConcrete ((I.meaning cx.old).region region.now) }
    ensures grown { Extends (I.meaning cx.old) (I.meaning cx.new) }
    ensures concrete { IfOk result (λ k. IsConcrete ((I.meaning cx.new).ty k)) }
{
    let byte = make_byte(cx)?;
    make_ty(cx, TyKind::Ref(*region, byte, Mutability::Not))
}

// An item that is contravariant in its one parameter, a type.
pub(super) fn add_contravariant(
    cx: &mut RefInterner,
    alloc: Global,
) -> Result<ItemId, OutOfMemory> {
    let mut params = Vec::new(alloc);
    params.push(GenericParam {
        kind: GenericParamKind::Type,
        name: SymbolId(1),
    })?;
    let mut variances = Vec::new(alloc);
    variances.push(Variance::Contravariant)?;
    let def = DefKind::Adt;
    cx.add_item(ItemKind { def, params }, SymbolId(0), variances)
}

// The first region outlives the second.
fn outlives<X>(a: RegionKey<X>, b: RegionKey<X>) -> RegionConstraint<X> {
    RegionConstraint::Outlives(OutlivesPredicate(GenericArgKind::Lifetime(a), b))
}

// Two regions, and the types `&'a u8` and `&'b u8` of these.
#[derive(Clone, Copy)]
struct Two<X> {
    a: RegionKey<X>,
    b: RegionKey<X>,
    left: TyKey<X>,
    right: TyKey<X>,
}

// They are made, in an interner.
#[tactic(auto, using(relation_terms::proofs::Stays::extends_on, plain_relation::proofs::Concrete::region_concrete, plain_relation::proofs::Concrete::stays_concrete))]
fn make_two<I: Interner>(cx: &mut I, name: &I::Name) -> Result<Two<I::Key>, OutOfMemory>
    ensures a { IfOk result (λ t. IsConcrete ((I.meaning cx.new).region t.a)) }
    ensures b { IfOk result (λ t. IsConcrete ((I.meaning cx.new).region t.b)) }
    ensures left { IfOk result (λ t. IsConcrete ((I.meaning cx.new).ty t.left)) }
    ensures right { IfOk result (λ t. IsConcrete ((I.meaning cx.new).ty t.right)) }
{
    let a = make_region(cx, 0, name)?;
    let b = make_region(cx, 1, name)?;
    let left = make_ref(cx, &a)?;
    let right = make_ref(cx, &b)?;
    Ok(Two { a, b, left, right })
}

// Whether relating two types asks just this of regions.
fn asks_of_types<I: Interner + Drop>(
    cx: I,
    variance: Variance,
    a: &Ty<I>,
    b: &Ty<I>,
    what: RegionConstraint<I::Key>,
) -> RelateResult<I, bool>
    requires decides { variance ≢ Bivariant }
    requires lhs { IsConcrete ((I.meaning cx).ty a.now) }
    requires rhs { IsConcrete ((I.meaning cx).ty b.now) }
{
    let relation = constraints_of(cx, variance, a, b)?;
    Ok((relation.constraints.len() == 1) & relation.constraints.contains(&what))
}

// The relation after it has related the arguments of an item.
fn related_args<I: Interner + Drop>(
    cx: I,
    variance: Variance,
    def_id: &ItemOf<I>,
    a: &GenericArgs<I>,
    b: &GenericArgs<I>,
) -> RelateResult<I, PlainRelation<I>>
    requires decides { variance ≢ Bivariant }
    requires asked { Asked plain_manner (plain_state (I.meaning cx) variance []) variance
        (node (adt ((I.meaning cx).id (def_id.now).0)) ((I.meaning cx).args a.now))
        (node (adt ((I.meaning cx).id (def_id.now).0)) ((I.meaning cx).args b.now)) }
    requires as_many { count ((I.meaning cx).args a.now) ≡ count ((I.meaning cx).args b.now) }
{
    let mut relation = PlainRelation::new(cx, variance);
    relate_args_with_variances(&mut relation, def_id, a, b)?;
    Ok(relation)
}

// Whether relating a list with itself asks nothing of regions.
pub(super) fn args_ask_nothing<I: Interner + Drop>(
    cx: I,
    def_id: &ItemOf<I>,
    args: &GenericArgs<I>,
) -> RelateResult<I, bool>
    requires { IsConcrete ((I.meaning cx).args args.now) }
{
    let relation = related_args(cx, Variance::Covariant, def_id, args, args)?;
    Ok(relation.constraints.is_empty())
}

// The list of the one argument.
#[tactic(auto, using(plain_relation::proofs::Concrete::concrete_known))]
pub(super) fn make_args<I: Interner>(
    cx: &mut I,
    ty: &TyKey<I::Key>,
) -> Result<GenericArgs<I>, OutOfMemory>
    requires { IsConcrete ((I.meaning cx.old).ty ty.now) }
    ensures grown { Extends (I.meaning cx.old) (I.meaning cx.new) }
    ensures is { IfOk result (λ k. (I.meaning cx.new).args k ≡ cons ((I.meaning cx.old).ty ty.now) nil) }
{
    let mut args = Vec::new(cx.alloc());
    args.push(GenericArgKind::Ty(*ty))?;
    cx.mk_args(&args)
}

// Whether relating two types asks what their regions do.
fn types_ask<I: Interner + Drop>(mut cx: I, name: &I::Name) -> RelateResult<I, bool> {
    let two = make_two(&mut cx, name)?;
    let what = outlives(two.a, two.b);
    asks_of_types(cx, Variance::Covariant, &two.left, &two.right, what)
}

#[test]
fn types_are_related(rt: HostRuntime) -> Result<(), Fail> {
    let answer = types_ask(RefInterner::new(rt.alloc()), &SymbolId(0));
    assert!(rt; answer == Ok(true));
    Ok(())
}
