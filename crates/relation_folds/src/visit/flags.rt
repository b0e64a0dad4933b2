//! What is asked about terms as a whole.
ghost use Rattle.std.specs.Prelude.{◌≡◌, IsTrue, cond, nat_lt};
ghost use Rattle.relation_terms.specs.Trees.{known};
ghost use Rattle.relation_folds.specs.Visits.{bound_var_escapes, non_region_infer_stands, is_rigid};
ghost use Rattle.relation_folds.specs.declared.visit.Visit.TheVariants.{Skip as VisitSkip, Stop as VisitStop};

use crate::visit::{TypeVisitable, TypeVisitor, Visit};
use relation_terms::terms::{Const, Interner, Region, Ty, TyKind, TypeFlags, region_flags};

// Stops at a term that an inference variable stands in that is no region, and enters none.
#[derive(Clone, Copy)]
struct FindsNonRegionInfer;

// Whether the visit stops at a term of these flags.
fn stop_at_infer(flags: &TypeFlags) -> Visit
    ensures { result ≡ cond (flags.now).has_non_region_infer VisitStop VisitSkip }
{
    if flags.has_non_region_infer {
        Visit::Stop
    } else {
        Visit::Skip
    }
}

impl<I: Interner> TypeVisitor<I> for FindsNonRegionInfer {
    ghost use Rattle.relation_folds.specs.Visits.{StopsAtInfer};

    ghost visits = { λ cx v d t w a. StopsAtInfer v d t w a };

    fn visit_ty(&mut self, cx: &I, ty: &Ty<I>, _depth: u128) -> Visit {
        stop_at_infer(&cx.ty_flags(ty))
    }

    fn visit_region(&mut self, cx: &I, region: &Region<I>, _depth: u128) -> Visit {
        stop_at_infer(&region_flags(cx, region))
    }

    fn visit_const(&mut self, cx: &I, constant: &Const<I>, _depth: u128) -> Visit {
        stop_at_infer(&cx.const_flags(constant))
    }
}

// Stops at a term in which a variable stands that a binder outside binds, and enters none.
#[derive(Clone, Copy)]
struct FindsEscaping;

// Whether the visit stops at a term of these flags under so many binders.
fn stop_at_escaping(flags: &TypeFlags, depth: u128) -> Visit
    ensures told { result ≡ cond (nat_lt depth (flags.now).outer_exclusive_binder) VisitStop VisitSkip }
    ensures near { let binder = (flags.now).outer_exclusive_binder in
        IsTrue (nat_lt binder 340282366920938463463374607431768211456) }
{
    if depth < flags.outer_exclusive_binder {
        Visit::Stop
    } else {
        Visit::Skip
    }
}

impl<I: Interner> TypeVisitor<I> for FindsEscaping {
    ghost use Rattle.relation_folds.specs.Visits.{StopsAtEscaping};

    ghost visits = { λ cx v d t w a. StopsAtEscaping v d t w a };

    fn visit_ty(&mut self, cx: &I, ty: &Ty<I>, depth: u128) -> Visit {
        stop_at_escaping(&cx.ty_flags(ty), depth)
    }

    fn visit_region(&mut self, cx: &I, region: &Region<I>, depth: u128) -> Visit {
        stop_at_escaping(&region_flags(cx, region), depth)
    }

    fn visit_const(&mut self, cx: &I, constant: &Const<I>, depth: u128) -> Visit {
        stop_at_escaping(&cx.const_flags(constant), depth)
    }
}

/// Whether a variable stands in a term that a binder outside the term binds. The interner knows the term.
pub fn has_escaping_bound_vars<I: Interner, T: TypeVisitable<I>>(cx: &I, term: &T) -> bool
    requires { IsTrue (known (T.tree (I.meaning cx.now) term.now)) }
    ensures { result ≡ bound_var_escapes (T.tree (I.meaning cx.now) term.now) }
{
    term.visit_with(cx, &mut FindsEscaping).is_break()
}

/// Whether an inference variable of any kind but region stands in a term. The interner knows the term.
pub fn has_non_region_infer<I: Interner, T: TypeVisitable<I>>(cx: &I, term: &T) -> bool
    requires { IsTrue (known (T.tree (I.meaning cx.now) term.now)) }
    ensures { result ≡ non_region_infer_stands (T.tree (I.meaning cx.now) term.now) }
{
    term.visit_with(cx, &mut FindsNonRegionInfer).is_break()
}

/// Whether the outermost form of a type stays what it is, whatever is instantiated or normalised: of all forms but
/// aliases, parameters, bound variables, placeholders, variables and errors. The interner knows the type.
pub fn is_known_rigid<I: Interner>(cx: &I, ty: &Ty<I>) -> bool
    requires { IsTrue (known ((I.meaning cx.now).ty ty.now)) }
    ensures { result ≡ is_rigid ((I.meaning cx.now).ty ty.now) }
{
    let kind = cx.ty_kind(ty);
    match &kind {
        TyKind::Alias(_)
        | TyKind::Param(_)
        | TyKind::Bound(..)
        | TyKind::Placeholder(_)
        | TyKind::Infer(_)
        | TyKind::Error(_) => false,
        TyKind::Bool
        | TyKind::Char
        | TyKind::Int(_)
        | TyKind::Uint(_)
        | TyKind::Float(_)
        | TyKind::Adt(..)
        | TyKind::Foreign(_)
        | TyKind::Str
        | TyKind::Array(..)
        | TyKind::Pat(..)
        | TyKind::Slice(_)
        | TyKind::RawPtr(..)
        | TyKind::Ref(..)
        | TyKind::FnDef(..)
        | TyKind::FnPtr(..)
        | TyKind::UnsafeBinder(_)
        | TyKind::Dynamic(..)
        | TyKind::Closure(..)
        | TyKind::CoroutineClosure(..)
        | TyKind::Coroutine(..)
        | TyKind::CoroutineWitness(..)
        | TyKind::Never
        | TyKind::Tuple(_) => true,
    }
}
