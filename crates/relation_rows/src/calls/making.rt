//! The terms that calls are made of.
ghost use Rattle.std.specs.Prelude.{◌≡◌, IsTrue, IfOk};
ghost use Rattle.relation_terms.specs.Trees.{known};
ghost use Rattle.relation_terms.specs.Meaning.{Extends, arg_tree};
ghost use Rattle.relation_terms.specs.Edits.{HasSelf};
ghost use Rattle.relation_rows.specs.Terms.{param_of, pair_of};

use relation_terms::predicate::{ExistentialTraitRef, TraitRef};
use relation_terms::terms::{
    EarlyParamRegion, GenericArg, GenericArgKind, GenericArgs, Interner, OutOfMemory, ParamTy,
    Region, RegionKind, TraitId, Ty, TyKind, UintTy,
};

// A parameter that stands for a type.
pub(super) fn make_param<I: Interner>(
    cx: &mut I,
    index: u32,
    name: I::Name,
) -> Result<Ty<I>, OutOfMemory>
    ensures grown { Extends (I.meaning cx.old) (I.meaning cx.new) }
    ensures sure { IfOk result (λ k. IsTrue (known ((I.meaning cx.new).ty k))) }
    ensures made { IfOk result (λ k. (I.meaning cx.new).ty k ≡ param_of (I.meaning cx.old) index name) }
{
    cx.mk_ty(TyKind::Param(ParamTy { index, name }))
}

// A parameter that stands for a region.
pub(super) fn make_region<I: Interner>(
    cx: &mut I,
    index: u32,
    name: I::Name,
) -> Result<Region<I>, OutOfMemory>
    ensures grown { Extends (I.meaning cx.old) (I.meaning cx.new) }
    ensures sure { IfOk result (λ k. IsTrue (known ((I.meaning cx.new).region k))) }
{
    cx.mk_region(RegionKind::ReEarlyParam(EarlyParamRegion { index, name }))
}

// A list of two arguments.
pub(super) fn make_pair<I: Interner>(
    cx: &mut I,
    first: GenericArg<I>,
    second: GenericArg<I>,
) -> Result<GenericArgs<I>, OutOfMemory>
    requires first { IsTrue (known (arg_tree (I.meaning cx.old) first)) }
    requires second { IsTrue (known (arg_tree (I.meaning cx.old) second)) }
    ensures grown { Extends (I.meaning cx.old) (I.meaning cx.new) }
    ensures sure { IfOk result (λ k. IsTrue (known ((I.meaning cx.new).args k))) }
    ensures made { IfOk result (λ k. (I.meaning cx.new).args k ≡ pair_of (I.meaning cx.old) first second) }
{
    let mut args = Vec::new(cx.alloc());
    args.push(first)?;
    args.push(second)?;
    cx.mk_args(&args)
}

// The parameters of these names that stand for types.
#[tactic(auto, using(relation_terms::proofs::Stays::knows_ty))]
pub(super) fn make_params<I: Interner>(
    cx: &mut I,
    first: I::Name,
    second: I::Name,
) -> Result<GenericArgs<I>, OutOfMemory>
    ensures grown { Extends (I.meaning cx.old) (I.meaning cx.new) }
    ensures sure { IfOk result (λ k. IsTrue (known ((I.meaning cx.new).args k))) }
{
    let first = make_param(cx, 0, first)?;
    let second = make_param(cx, 1, second)?;
    make_pair(cx, GenericArgKind::Ty(first), GenericArgKind::Ty(second))
}

// `[u8, bool]`.
#[tactic(auto, using(relation_terms::proofs::Stays::knows_ty))]
pub(super) fn make_plain<I: Interner>(cx: &mut I) -> Result<GenericArgs<I>, OutOfMemory>
    ensures grown { Extends (I.meaning cx.old) (I.meaning cx.new) }
    ensures sure { IfOk result (λ k. IsTrue (known ((I.meaning cx.new).args k))) }
{
    let first = cx.mk_ty(TyKind::Uint(UintTy::U8))?;
    let second = cx.mk_ty(TyKind::Bool)?;
    make_pair(cx, GenericArgKind::Ty(first), GenericArgKind::Ty(second))
}

// The parameter of a name that stands for a type, and that of another that stands for a region.
#[tactic(auto, using(relation_terms::proofs::Stays::knows_ty))]
pub(super) fn make_type_and_region<I: Interner>(
    cx: &mut I,
    first: I::Name,
    second: I::Name,
) -> Result<GenericArgs<I>, OutOfMemory>
    ensures grown { Extends (I.meaning cx.old) (I.meaning cx.new) }
    ensures sure { IfOk result (λ k. IsTrue (known ((I.meaning cx.new).args k))) }
{
    let ty = make_param(cx, 0, first)?;
    let region = make_region(cx, 1, second)?;
    make_pair(cx, GenericArgKind::Ty(ty), GenericArgKind::Lifetime(region))
}

// A trait over `u32`, of the parameter of a name.
#[tactic(auto, using(relation_terms::proofs::Stays::knows_ty, crate::proofs::Arguments::first_is_self))]
fn make_trait_ref<I: Interner>(
    cx: &mut I,
    def_id: TraitId<I::Id>,
    name: I::Name,
) -> Result<TraitRef<I::Key, I::Id>, OutOfMemory>
    ensures grown { Extends (I.meaning cx.old) (I.meaning cx.new) }
    ensures sure { IfOk result (λ t. IsTrue (known ((I.meaning cx.new).args t.args))) }
    ensures has_self { IfOk result (λ t. HasSelf ((I.meaning cx.new).args t.args)) }
{
    let number = cx.mk_ty(TyKind::Uint(UintTy::U32))?;
    let ty = make_param(cx, 0, name)?;
    let args = make_pair(cx, GenericArgKind::Ty(ty), GenericArgKind::Ty(number))?;
    Ok(TraitRef { def_id, args })
}

// The same trait, without the parameter.
pub(super) fn make_object<I: Interner>(
    cx: &mut I,
    def_id: TraitId<I::Id>,
    name: I::Name,
) -> Result<ExistentialTraitRef<I::Key, I::Id>, OutOfMemory>
    ensures grown { Extends (I.meaning cx.old) (I.meaning cx.new) }
    ensures sure { IfOk result (λ t. IsTrue (known ((I.meaning cx.new).args t.args))) }
{
    let trait_ref = make_trait_ref(cx, def_id, name)?;
    ExistentialTraitRef::erase_self_ty(cx, &trait_ref)
}
