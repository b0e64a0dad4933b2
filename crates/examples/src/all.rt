//! Each example called once.
ghost use Rattle.std.specs.Prelude.{◌≡◌, IsTrue, IfOk};
ghost use Rattle.relation_terms.specs.Trees.{known};
ghost use Rattle.relation_terms.specs.Meaning.{Extends};

use crate::folder::put_for_param;
use crate::visitor::count_regions;
use reference_interner::{RefInterner, SymbolId};
use relation_terms::terms::{
    EarlyParamRegion, Interner, Mutability, OutOfMemory, ParamTy, Region, RegionKind, Ty, TyKind,
    UintTy,
};
use std::test::Fail;

/// The region parameter of an index.
pub(crate) fn make_region<I: Interner>(
    cx: &mut I,
    index: u32,
    name: I::Name,
) -> Result<Region<I>, OutOfMemory>
    ensures grown { Extends (I.meaning cx.old) (I.meaning cx.new) }
    ensures sure { IfOk result (λ k. IsTrue (known ((I.meaning cx.new).region k))) }
{
    cx.mk_region(RegionKind::ReEarlyParam(EarlyParamRegion { index, name }))
}

// The type `&'a T`, of the parameters 0 and 1.
#[tactic(auto, using(relation_terms::proofs::Stays::knows_region))]
fn make_ref<I: Interner>(cx: &mut I, name: I::Name) -> Result<Ty<I>, OutOfMemory>
    ensures grown { Extends (I.meaning cx.old) (I.meaning cx.new) }
    ensures sure { IfOk result (λ k. IsTrue (known ((I.meaning cx.new).ty k))) }
{
    let region = make_region(cx, 0, name)?;
    let param = cx.mk_ty(TyKind::Param(ParamTy { index: 1, name }))?;
    cx.mk_ty(TyKind::Ref(region, param, Mutability::Not))
}

// Whether `&'a u8` comes of `&'a T`, and has one region.
#[tactic(auto, using(relation_terms::proofs::Stays::knows_ty))]
fn terms_go<I: Interner>(cx: &mut I, ty: Ty<I>) -> Result<bool, OutOfMemory>
    requires { IsTrue (known ((I.meaning cx.old).ty ty)) }
    ensures grown { Extends (I.meaning cx.old) (I.meaning cx.new) }
{
    let byte = cx.mk_ty(TyKind::Uint(UintTy::U8))?;
    let put = put_for_param(cx, &ty, 1, byte)?;
    let is_byte = match cx.ty_kind(&put) {
        TyKind::Ref(_, pointee, _) => pointee == byte,
        _ => false,
    };
    Ok(is_byte && count_regions(cx, &put) == 1)
}

// Whether each example does what it is to do.
fn all_go<I: Interner>(cx: &mut I, name: I::Name) -> Result<bool, OutOfMemory> {
    let ty = make_ref(cx, name)?;
    terms_go(cx, ty)
}

#[test]
fn examples_go(rt: HostRuntime) -> Result<(), Fail> {
    let mut cx = RefInterner::new(rt.alloc());
    assert!(rt; all_go(&mut cx, SymbolId(0))?);
    Ok(())
}
