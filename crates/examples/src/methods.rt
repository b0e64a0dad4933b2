//! The smallest table of methods, and which of them may be for a type.
ghost use Rattle.std.specs.Prelude.{◌⊎◌, Contains, IsTrue, IfOk};
ghost use Rattle.relation_terms.specs.Trees.{known};
ghost use Rattle.relation_terms.specs.Meaning.{Extends};
ghost use Rattle.relation_methods.specs.Methods.{AreApart};

use reference_interner::{RefInterner, SymbolId};
use relation_methods::MethodTable;
use relation_terms::terms::{
    Binder, BoundTy, BoundVar, BoundVariableKind, DebruijnIndex, Interner, Keys, OutOfMemory, Ty,
    TyKind, UintTy,
};
use std::test::Fail;

/// A type under a binder of what a method, or an impl, is generic over.
type GenericTy<I> = Binder<<I as Keys>::Key, Ty<I>>;

/// The numbers of those of two methods that may be for a type: 1 of the first, which is for one type, and 2 of the
/// second, which is for another. One that is left out is for no instance of the type.
pub fn methods_for<I: Interner>(
    cx: &I,
    first: GenericTy<I>,
    second: GenericTy<I>,
    ty: &Ty<I>,
) -> Result<Vec<u32>, OutOfMemory>
    requires first_known { IsTrue (known ((I.meaning cx.now).ty first.value)) }
    requires second_known { IsTrue (known ((I.meaning cx.now).ty second.value)) }
    requires ty_known { IsTrue (known ((I.meaning cx.now).ty ty.now)) }
    ensures first { IfOk result (λ v. Contains v.items 1 ⊎ AreApart (I.meaning cx.now) first.value ty.now) }
    ensures second { IfOk result (λ v. Contains v.items 2 ⊎ AreApart (I.meaning cx.now) second.value ty.now) }
{
    let mut table = MethodTable::new(cx.alloc());
    table.insert(cx, first, 1)?;
    table.insert(cx, second, 2)?;
    let found = table.look_up(cx, ty)?;
    let mut numbers = Vec::new(cx.alloc());
    for entry in &found {
        numbers.push(entry.value)?;
    }
    Ok(numbers)
}

// Every type, and bytes, each under a binder.
fn make_types<I: Interner>(
    cx: &mut I,
    name: I::Name,
) -> Result<(GenericTy<I>, GenericTy<I>), OutOfMemory>
    ensures grown { Extends (I.meaning cx.old) (I.meaning cx.new) }
    ensures every_known { IfOk result (λ p. IsTrue (known ((I.meaning cx.new).ty p.0.value))) }
    ensures byte_known { IfOk result (λ p. IsTrue (known ((I.meaning cx.new).ty p.1.value))) }
{
    let var = BoundVar(0);
    let param = cx.mk_ty(TyKind::Bound(DebruijnIndex(0), BoundTy { var, name }))?;
    let byte = cx.mk_ty(TyKind::Uint(UintTy::U8))?;
    let mut variables = Vec::new(cx.alloc());
    let none = cx.mk_bound_vars(&variables)?;
    variables.push(BoundVariableKind::Ty(name))?;
    let one = cx.mk_bound_vars(&variables)?;
    let every = Binder {
        value: param,
        bound_vars: one,
    };
    let bytes = Binder {
        value: byte,
        bound_vars: none,
    };
    Ok((every, bytes))
}

// Whether the method for every type may be for `char`, and that for bytes is left out; and both may be for a byte.
fn finds_methods<I: Interner>(cx: &mut I, name: I::Name) -> Result<bool, OutOfMemory> {
    let (every, bytes) = make_types(cx, name)?;
    let char = cx.mk_ty(TyKind::Char)?;
    let of_char = methods_for(cx, every, bytes, &char)?;
    let of_byte = methods_for(cx, every, bytes, &bytes.value)?;
    Ok(of_char.as_slice() == [1].as_slice() && of_byte.as_slice() == [1, 2].as_slice())
}

#[test]
fn methods_are_found(rt: HostRuntime) -> Result<(), Fail> {
    let mut cx = RefInterner::new(rt.alloc());
    assert!(rt; finds_methods(&mut cx, SymbolId(0))?);
    Ok(())
}
