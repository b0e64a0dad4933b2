//! Arguments that are compared by their keys.
ghost use Rattle.std.specs.Prelude.{◌≡◌};
ghost use Rattle.text_asking.specs.Args.{same_arg, alike};

use relation_terms::terms::GenericArgKind;

// Whether two arguments are of one sort, with equal keys.
pub(super) fn same_arg<X: Copy + PartialEq>(a: GenericArgKind<X>, b: GenericArgKind<X>) -> bool
    ensures { result ≡ same_arg X.eq a b }
{
    match (a, b) {
        (GenericArgKind::Lifetime(a), GenericArgKind::Lifetime(b)) => a.0 == b.0,
        (GenericArgKind::Ty(a), GenericArgKind::Ty(b)) => a.0 == b.0,
        (GenericArgKind::Const(a), GenericArgKind::Const(b)) => a.0 == b.0,
        _ => false,
    }
}

// Whether two arguments are of one sort.
pub(super) fn alike<X: Copy>(a: GenericArgKind<X>, b: GenericArgKind<X>) -> bool
    ensures { result ≡ alike a b }
{
    match (a, b) {
        (GenericArgKind::Lifetime(_), GenericArgKind::Lifetime(_)) => true,
        (GenericArgKind::Ty(_), GenericArgKind::Ty(_)) => true,
        (GenericArgKind::Const(_), GenericArgKind::Const(_)) => true,
        _ => false,
    }
}
