//! Reading what variables have come to, by a context's tables.
ghost use Rattle.std.specs.Prelude.{◌<◌, IsTrue, IfSome, IfNone, length};
ghost use Rattle.relation_terms.specs.Heads.{type_var, int_var, float_var};
ghost use Rattle.relation_terms.specs.Trees.{known};
ghost use Rattle.relation_semantics.specs.Bound.{IsWellBound};
ghost use Rattle.relation_semantics.specs.Stores.{InContext};
ghost use Rattle.relation_semantics.specs.Resolving.{IsShallow, IsShallowTy, IsShallowConst};
ghost use Rattle.variable_tables.specs.Tables.{store_of, IsLawful};
ghost use Rattle.relation_reference.specs.Answers.{VarReadsAsTy, VarReadsAsConst, TyReadsAs, ConstReadsAs, TyResolves};
ghost use Rattle.relation_reference.specs.Answers.{ConstResolves, FindsTy, IsWritten};

use crate::context::{InferCtxtInner, VariableValue};
use relation_semantics::variable_forms::{const_vid, float_vid, int_vid, ty_vid};
use relation_terms::terms::{Const, ConstVid, FloatVid, IntVid, Interner, Ty, TyVid};

// What is recorded of a type variable: the type that its class is bound to, or else the root of its class.
fn found_ty<I: Interner>(_cx: &I, inner: &InferCtxtInner<I::Key>, var: TyVid) -> Ty<I>
    requires lawful { IsLawful (I.meaning _cx.now) inner.now }
    requires made { var.0 < length inner.now.types.items }
    ensures sure { IsTrue (known ((I.meaning _cx.now).ty result)) }
    ensures found { FindsTy (I.meaning _cx.now) inner.now var.0 result }
    ensures reads { VarReadsAsTy (I.meaning _cx.now) inner.now type_var var.0 result }
    ensures by_lists { IsWellBound ((I.meaning _cx.now).ty result) }
{
    inner.types.term_of(var.0)
}

// The type variable that a type is, where something is recorded of it.
fn written_var<I: Interner>(cx: &I, inner: &InferCtxtInner<I::Key>, ty: &Ty<I>) -> Option<TyVid>
    requires lawful { IsLawful (I.meaning cx.now) inner.now }
    requires ty_known { IsTrue (known ((I.meaning cx.now).ty ty.now)) }
    requires ty_in { InContext (store_of (I.meaning cx.now) inner.now) ((I.meaning cx.now).ty ty.now) }
    ensures is { let m = I.meaning cx.now in
        IfSome result (λ v. IsWritten (store_of (I.meaning cx.now) inner.now) v.0 (m.ty ty.now)) }
    ensures is_none { let m = I.meaning cx.now in
        IfNone result (IsShallowTy (store_of (I.meaning cx.now) inner.now) (m.ty ty.now)) }
{
    let var = ty_vid(&cx.ty_kind(ty))?;
    match inner.types.probe(var.0) {
        VariableValue::Unknown => None,
        VariableValue::SameAs(_) => Some(var),
        VariableValue::Known(_) => Some(var),
    }
}

// The type that a type variable's class is bound to, or else the root of its class. Of another type variable that is
// read in turn. It stands apart from reading a type, which mostly is no variable.
#[inline(never)]
pub(crate) fn ty_of_var<I: Interner>(cx: &I, inner: &InferCtxtInner<I::Key>, var: TyVid) -> Ty<I>
    requires lawful { IsLawful (I.meaning cx.now) inner.now }
    requires made { var.0 < length inner.now.types.items }
    ensures sure { IsTrue (known ((I.meaning cx.now).ty result)) }
    ensures reads { VarReadsAsTy (I.meaning cx.now) inner.now type_var var.0 result }
    ensures shallow { IsShallowTy (store_of (I.meaning cx.now) inner.now) ((I.meaning cx.now).ty result) }
    ensures by_lists { IsWellBound ((I.meaning cx.now).ty result) }
{
    let mut found = found_ty(cx, inner, var);
    while let Some(next) = written_var(cx, inner, &found) {
        found = found_ty(cx, inner, next);
    }
    found
}

// The type that an integer variable's class is bound to, or else the root of its class.
pub(crate) fn ty_of_int_var<I: Interner>(
    _cx: &I,
    inner: &InferCtxtInner<I::Key>,
    var: IntVid,
) -> Ty<I>
    requires lawful { IsLawful (I.meaning _cx.now) inner.now }
    requires made { var.0 < length inner.now.ints.items }
    ensures sure { IsTrue (known ((I.meaning _cx.now).ty result)) }
    ensures reads { VarReadsAsTy (I.meaning _cx.now) inner.now int_var var.0 result }
    ensures shallow { IsShallow (store_of (I.meaning _cx.now) inner.now) ((I.meaning _cx.now).ty result) }
    ensures by_lists { IsWellBound ((I.meaning _cx.now).ty result) }
{
    inner.ints.term_of(var.0)
}

// The type that a float variable's class is bound to, or else the root of its class.
pub(crate) fn ty_of_float_var<I: Interner>(
    _cx: &I,
    inner: &InferCtxtInner<I::Key>,
    var: FloatVid,
) -> Ty<I>
    requires lawful { IsLawful (I.meaning _cx.now) inner.now }
    requires made { var.0 < length inner.now.floats.items }
    ensures sure { IsTrue (known ((I.meaning _cx.now).ty result)) }
    ensures reads { VarReadsAsTy (I.meaning _cx.now) inner.now float_var var.0 result }
    ensures shallow { IsShallow (store_of (I.meaning _cx.now) inner.now) ((I.meaning _cx.now).ty result) }
    ensures by_lists { IsWellBound ((I.meaning _cx.now).ty result) }
{
    inner.floats.term_of(var.0)
}

// The constant that a constant variable's class is bound to, or else the root of its class.
pub(crate) fn const_of_var<I: Interner>(
    _cx: &I,
    inner: &InferCtxtInner<I::Key>,
    var: ConstVid,
) -> Const<I>
    requires lawful { IsLawful (I.meaning _cx.now) inner.now }
    requires made { var.0 < length inner.now.consts.items }
    ensures sure { IsTrue (known ((I.meaning _cx.now).const_ result)) }
    ensures reads { VarReadsAsConst (I.meaning _cx.now) inner.now var.0 result }
    ensures shallow { IsShallowConst (store_of (I.meaning _cx.now) inner.now) ((I.meaning _cx.now).const_ result) }
    ensures by_lists { IsWellBound ((I.meaning _cx.now).const_ result) }
{
    inner.consts.term_of(var.0)
}

// The type itself, or for a type variable what is read of it.
pub(crate) fn shallow_ty<I: Interner>(cx: &I, inner: &InferCtxtInner<I::Key>, ty: &Ty<I>) -> Ty<I>
    requires lawful { IsLawful (I.meaning cx.now) inner.now }
    requires ty_known { IsTrue (known ((I.meaning cx.now).ty ty.now)) }
    requires ty_in { InContext (store_of (I.meaning cx.now) inner.now) ((I.meaning cx.now).ty ty.now) }
    ensures sure { IsTrue (known ((I.meaning cx.now).ty result)) }
    ensures reads { TyReadsAs (I.meaning cx.now) inner.now ty.now result }
    ensures shallow { IsShallowTy (store_of (I.meaning cx.now) inner.now) ((I.meaning cx.now).ty result) }
    ensures by_lists { let m = I.meaning cx.now in IsWellBound (m.ty ty.now) → IsWellBound (m.ty result) }
{
    let Some(var) = ty_vid(&cx.ty_kind(ty)) else {
        return *ty;
    };
    ty_of_var(cx, inner, var)
}

// The type itself, or for an integer or float variable what its class is bound to, or else the root of its class.
pub(crate) fn shallow_number<I: Interner>(
    cx: &I,
    inner: &InferCtxtInner<I::Key>,
    ty: &Ty<I>,
) -> Ty<I>
    requires lawful { IsLawful (I.meaning cx.now) inner.now }
    requires ty_known { IsTrue (known ((I.meaning cx.now).ty ty.now)) }
    requires ty_in { InContext (store_of (I.meaning cx.now) inner.now) ((I.meaning cx.now).ty ty.now) }
    requires ty_shallow { IsShallowTy (store_of (I.meaning cx.now) inner.now) ((I.meaning cx.now).ty ty.now) }
    ensures sure { IsTrue (known ((I.meaning cx.now).ty result)) }
    ensures reads { TyReadsAs (I.meaning cx.now) inner.now ty.now result }
    ensures shallow { IsShallow (store_of (I.meaning cx.now) inner.now) ((I.meaning cx.now).ty result) }
    ensures by_lists { let m = I.meaning cx.now in IsWellBound (m.ty ty.now) → IsWellBound (m.ty result) }
{
    let kind = cx.ty_kind(ty);
    if let Some(number) = int_vid(&kind) {
        return ty_of_int_var(cx, inner, number);
    }
    if let Some(float) = float_vid(&kind) {
        return ty_of_float_var(cx, inner, float);
    }
    *ty
}

// The type itself, or for a variable the type that its class is bound to, or else the root of its class. A type
// variable that is bound to another variable is read as that one is.
pub(crate) fn shallow_resolve<I: Interner>(
    cx: &I,
    inner: &InferCtxtInner<I::Key>,
    ty: &Ty<I>,
) -> Ty<I>
    requires lawful { IsLawful (I.meaning cx.now) inner.now }
    requires ty_known { IsTrue (known ((I.meaning cx.now).ty ty.now)) }
    requires ty_in { InContext (store_of (I.meaning cx.now) inner.now) ((I.meaning cx.now).ty ty.now) }
    ensures sure { IsTrue (known ((I.meaning cx.now).ty result)) }
    ensures reads { TyReadsAs (I.meaning cx.now) inner.now ty.now result }
    ensures resolves { TyResolves (I.meaning cx.now) inner.now ty.now result }
    ensures shallow { IsShallow (store_of (I.meaning cx.now) inner.now) ((I.meaning cx.now).ty result) }
    ensures by_lists { let m = I.meaning cx.now in IsWellBound (m.ty ty.now) → IsWellBound (m.ty result) }
{
    let found = shallow_ty(cx, inner, ty);
    shallow_number(cx, inner, &found)
}

// The constant itself, or for a variable the constant that its class is bound to, or else the root of its class.
pub(crate) fn shallow_resolve_const<I: Interner>(
    cx: &I,
    inner: &InferCtxtInner<I::Key>,
    constant: &Const<I>,
) -> Const<I>
    requires lawful { IsLawful (I.meaning cx.now) inner.now }
    requires const_known { IsTrue (known ((I.meaning cx.now).const_ constant.now)) }
    requires const_in { InContext (store_of (I.meaning cx.now) inner.now) ((I.meaning cx.now).const_ constant.now) }
    ensures sure { IsTrue (known ((I.meaning cx.now).const_ result)) }
    ensures reads { ConstReadsAs (I.meaning cx.now) inner.now constant.now result }
    ensures resolves { ConstResolves (I.meaning cx.now) inner.now constant.now result }
    ensures shallow { IsShallowConst (store_of (I.meaning cx.now) inner.now) ((I.meaning cx.now).const_ result) }
    ensures by_lists { let m = I.meaning cx.now in IsWellBound (m.const_ constant.now) → IsWellBound (m.const_ result) }
{
    let Some(var) = const_vid(&cx.const_kind(constant)) else {
        return *constant;
    };
    const_of_var(cx, inner, var)
}
