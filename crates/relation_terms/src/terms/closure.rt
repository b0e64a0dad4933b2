//! What closures and coroutines have among their arguments: the types that they capture, and the type that a coroutine
//! is resumed with.
//!
//! The tuple of the captured types is the last argument, and a coroutine's resume type the last but one.
ghost use Rattle.std.specs.Prelude.{◌≡◌, IsTrue, IfSome, option_map};
ghost use Rattle.relation_terms.specs.Trees.{known};
ghost use Rattle.relation_terms.specs.Closures.{type_from_last, captured_types, resume_type};

use crate::terms::{GenericArgKind, GenericArgs, Interner, Ty};

// The argument that stands so many places before the last, if it is a type.
fn ty_from_last<I: Interner>(cx: &I, args: &GenericArgs<I>, places: usize) -> Option<Ty<I>>
    requires { IsTrue (known ((I.meaning cx.now).args args.now)) }
    ensures sure { IfSome result (λ t. IsTrue (known ((I.meaning cx.now).ty t))) }
    ensures means { option_map (I.meaning cx.now).ty result ≡
        type_from_last places ((I.meaning cx.now).args args.now) }
{
    let list = cx.args(args);
    if list.len() <= places {
        return None;
    }
    match &list[list.len() - 1 - places] {
        GenericArgKind::Ty(ty) => Some(*ty),
        GenericArgKind::Lifetime(_) | GenericArgKind::Const(_) => None,
    }
}

/// The tuple of the types that a closure captures, by the closure's arguments: the last one, and `None` where there is
/// none or it is no type. A closure that answers coroutines has it at the same place.
///
/// The interner has to know the arguments, and knows the tuple too. It takes no memory.
pub fn closure_upvars<I: Interner>(cx: &I, args: &GenericArgs<I>) -> Option<Ty<I>>
    requires { IsTrue (known ((I.meaning cx.now).args args.now)) }
    ensures sure { IfSome result (λ t. IsTrue (known ((I.meaning cx.now).ty t))) }
    ensures means { option_map (I.meaning cx.now).ty result ≡ captured_types ((I.meaning cx.now).args args.now) }
{
    ty_from_last(cx, args, 0)
}

/// The tuple of the types that a coroutine captures, by the coroutine's arguments: the last one, and `None` where there
/// is none or it is no type.
///
/// The interner has to know the arguments, and knows the tuple too. It takes no memory.
pub fn coroutine_upvars<I: Interner>(cx: &I, args: &GenericArgs<I>) -> Option<Ty<I>>
    requires { IsTrue (known ((I.meaning cx.now).args args.now)) }
    ensures sure { IfSome result (λ t. IsTrue (known ((I.meaning cx.now).ty t))) }
    ensures means { option_map (I.meaning cx.now).ty result ≡ captured_types ((I.meaning cx.now).args args.now) }
{
    closure_upvars(cx, args)
}

/// The type that a coroutine is resumed with, by the coroutine's arguments: the last but one, and `None` where there is
/// none or it is no type.
///
/// The interner has to know the arguments, and knows the type too. It takes no memory.
pub fn coroutine_resume_ty<I: Interner>(cx: &I, args: &GenericArgs<I>) -> Option<Ty<I>>
    requires { IsTrue (known ((I.meaning cx.now).args args.now)) }
    ensures sure { IfSome result (λ t. IsTrue (known ((I.meaning cx.now).ty t))) }
    ensures means { option_map (I.meaning cx.now).ty result ≡ resume_type ((I.meaning cx.now).args args.now) }
{
    ty_from_last(cx, args, 1)
}
