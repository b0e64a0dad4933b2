//! The arguments of an item that are its own generic parameters, and errors in their places.
ghost use Rattle.std.specs.Prelude.{◌≡◌, IsTrue, IfOk};
ghost use Rattle.relation_terms.specs.Trees.{known};
ghost use Rattle.relation_terms.specs.Meaning.{Extends, arg_tree};
ghost use Rattle.relation_terms.specs.Owned.{param_of};
ghost use Rattle.relation_terms.specs.Edits.{param_tree, error_tree};
ghost use Rattle.relation_terms.specs.Edited.{args_tree, IdentityArgs, ExtendedArgs};

use crate::terms::{
    ConstKind, EarlyParamRegion, ErrorGuaranteed, GenericArg, GenericArgKind, GenericArgs,
    GenericParam, GenericParamKind, Interner, ItemOf, OutOfMemory, ParamConst, ParamTy, RegionKind,
    TyKind,
};

// The index of the parameter at a place.
fn index_of(place: usize) -> Result<u32, OutOfMemory>
    ensures { IfOk result (λ index. index ≡ place) }
{
    u32::try_from(place).map_err(|_| OutOfMemory)
}

// A generic parameter of an index, as an argument.
fn param_arg<I: Interner>(
    cx: &mut I,
    param: &GenericParam<I::Name>,
    index: u32,
) -> Result<GenericArg<I>, OutOfMemory>
    ensures grown { Extends (I.meaning cx.old) (I.meaning cx.new) }
    ensures made { IfOk result (λ a.
        arg_tree (I.meaning cx.new) a ≡ param_tree index (param_of (I.meaning cx.old) param.now)) }
{
    let name = param.name;
    match param.kind {
        GenericParamKind::Lifetime => {
            let region = cx.mk_region(RegionKind::ReEarlyParam(EarlyParamRegion { index, name }))?;
            Ok(GenericArgKind::Lifetime(region))
        }
        GenericParamKind::Type => {
            let ty = cx.mk_ty(TyKind::Param(ParamTy { index, name }))?;
            Ok(GenericArgKind::Ty(ty))
        }
        GenericParamKind::Const => {
            let constant = cx.mk_const(ConstKind::Param(ParamConst { index, name }))?;
            Ok(GenericArgKind::Const(constant))
        }
    }
}

// An error as an argument for a generic parameter.
fn error_arg<I: Interner>(
    cx: &mut I,
    param: &GenericParam<I::Name>,
) -> Result<GenericArg<I>, OutOfMemory>
    ensures grown { Extends (I.meaning cx.old) (I.meaning cx.new) }
    ensures made { IfOk result (λ a.
        arg_tree (I.meaning cx.new) a ≡ error_tree (param_of (I.meaning cx.old) param.now)) }
{
    match param.kind {
        GenericParamKind::Lifetime => {
            let region = cx.mk_region(RegionKind::ReStatic)?;
            Ok(GenericArgKind::Lifetime(region))
        }
        GenericParamKind::Type => {
            let ty = cx.mk_ty(TyKind::Error(ErrorGuaranteed))?;
            Ok(GenericArgKind::Ty(ty))
        }
        GenericParamKind::Const => {
            let constant = cx.mk_const(ConstKind::Error(ErrorGuaranteed))?;
            Ok(GenericArgKind::Const(constant))
        }
    }
}

/// The generic parameters of an item, each as itself. Upstream an interner has this call.
///
/// Answers `OutOfMemory` where a growth was refused, or where there are more parameters than indices. What was known
/// keeps its meaning, also then.
pub fn identity_args<I: Interner>(
    cx: &mut I,
    def_id: &ItemOf<I>,
) -> Result<GenericArgs<I>, OutOfMemory>
    ensures grown { Extends (I.meaning cx.old) (I.meaning cx.new) }
    ensures sure { IfOk result (λ k. IsTrue (known ((I.meaning cx.new).args k))) }
    ensures arguments { IfOk result (λ k. IdentityArgs I.meaning cx.old cx.new (def_id.now).0 k) }
{
    let count = cx.generics_of(def_id).len();
    let mut args = Vec::new(cx.alloc());
    for i in 0..count {
        let param = cx.generics_of(def_id)[i];
        let index = index_of(i)?;
        let arg = param_arg(cx, &param, index)?;
        args.push(arg)?;
    }
    cx.mk_args(&args)
}

/// The given arguments, and errors for the generic parameters of an item that they leave out: of a type the error type,
/// of a constant the error constant, of a lifetime `'static`. Upstream an interner has this call.
///
/// The interner has to know the arguments. Answers `OutOfMemory` where a growth was refused. What was known keeps its
/// meaning, also then.
pub fn extend_with_error<I: Interner>(
    cx: &mut I,
    def_id: &ItemOf<I>,
    given: &[GenericArg<I>],
) -> Result<GenericArgs<I>, OutOfMemory>
    requires { IsTrue (known (args_tree (I.meaning cx.old) given.now)) }
    ensures grown { Extends (I.meaning cx.old) (I.meaning cx.new) }
    ensures sure { IfOk result (λ k. IsTrue (known ((I.meaning cx.new).args k))) }
    ensures arguments { IfOk result (λ k. ExtendedArgs I.meaning cx.old cx.new (def_id.now).0 given.now k) }
{
    let count = cx.generics_of(def_id).len();
    let mut args = Vec::new(cx.alloc());
    args.extend_from_slice(given)?;
    for i in given.len()..count {
        let param = cx.generics_of(def_id)[i];
        let arg = error_arg(cx, &param)?;
        args.push(arg)?;
    }
    cx.mk_args(&args)
}
