//! Which methods of a table may be for a type.
ghost use Rattle.std.specs.Prelude.{IsTrue, IfOk};
ghost use Rattle.std.specs.List.{All};
ghost use Rattle.relation_terms.specs.Trees.{known};
ghost use Rattle.relation_methods.specs.Methods.{AreKeyed};
ghost use Rattle.text_users.specs.Asked.{AreForKnown};
ghost use Rattle.text_users.specs.Found.{Holds, IsFoundOrApart};

use relation_methods::MethodTable;
use relation_terms::terms::{Binder, Interner, OutOfMemory, Ty, TyKey};

/// A method: the type that it is for, under a binder of what it is generic over, and its name.
#[derive(Clone, Copy)]
pub struct GenericMethod<X, N> {
    pub of: Binder<X, TyKey<X>>,
    pub name: N,
}

// The table of methods, in their order.
fn table_of<I: Interner>(
    cx: &I,
    methods: &[GenericMethod<I::Key, I::Name>],
) -> Result<MethodTable<I, I::Name>, OutOfMemory>
    requires { AreForKnown (I.meaning cx.now) methods.now }
    ensures keyed { IfOk result (AreKeyed (I.meaning cx.now)) }
    ensures holds { IfOk result (λ t. All (Holds t) methods.now) }
{
    let mut table = MethodTable::new(cx.alloc());
    for method in methods {
        table.insert(cx, method.of, method.name)?;
    }
    Ok(table)
}

/// The names of the methods that may be for a type, in their order, as a table of all finds them. One that is left out is
/// for no instance of the type. The interner knows the types.
///
/// # Errors
/// `OutOfMemory` where a growth was refused.
pub fn find_methods<I: Interner>(
    cx: &I,
    methods: &[GenericMethod<I::Key, I::Name>],
    ty: &Ty<I>,
) -> Result<Vec<I::Name>, OutOfMemory>
    requires methods_known { AreForKnown (I.meaning cx.now) methods.now }
    requires ty_known { IsTrue (known ((I.meaning cx.now).ty ty.now)) }
    ensures no_loss { IfOk result (λ names.
        All (IsFoundOrApart (I.meaning cx.now) ty.now names.items) methods.now) }
{
    let table = table_of(cx, methods)?;
    let found = table.look_up(cx, ty)?;
    let mut names = Vec::new(cx.alloc());
    for entry in &found {
        names.push(entry.value)?;
    }
    Ok(names)
}
