//! The forms: the parts of each, and each over other parts.
ghost use Rattle.std.specs.Prelude.{◌≡◌};
ghost use Rattle.relation_terms.specs.Meaning.{sig_of};
ghost use Rattle.relation_terms.specs.declared.terms.part_kind.Part.TheVariants.{Binder as BinderPart};
ghost use Rattle.relation_terms.specs.declared.terms.part_kind.Body.TheVariants.{Signature as SignatureBody};
ghost use Rattle.relation_terms.specs.declared.terms.part_kind.Body.TheVariants.{Ty as TyBody};
ghost use Rattle.relation_terms.specs.declared.terms.ty_kind.TyKind.TheVariants.{FnPtr, UnsafeBinder};
ghost use Rattle.relation_terms.specs.declared.terms.ty_kind.TyKind.TheVariants.{Array, RawPtr, Ref, Dynamic};
ghost use Rattle.relation_terms.specs.Parts.{ty_view, const_view, valtree_view, ty_made, const_made, valtree_made};
ghost use Rattle.relation_terms.specs.Parts.{pattern_view, pattern_made, existential_view, existential_made};

use crate::predicate::{ExistentialPredicate, ExistentialProjection, ExistentialTraitRef};
use crate::terms::parts::keys::{
    alternatives_or, args_or, bound_signature_or, bound_ty_or, branches_or, const_or, first_or,
    object_or, pat_or, region_or, second_or, term_args_or, term_or, ty_or, tys_or, valtree_or,
    value_type_or, vars_or,
};
use crate::terms::{
    AliasTy, Binder, Body, ConstKey, ConstKind, ExistentialPredicatesKey, FnHeader, FnSigTys,
    Mutability, Part, Parts, PatternKind, RegionKey, TyKey, TyKind, UnevaluatedConst, ValTreeKind,
};

/// The parts of a type, by its form.
#[inline(always)]
pub fn ty_parts<X: Copy, D: Copy, N>(kind: &TyKind<X, D, N>) -> Parts<X, D>
    ensures { result ≡ ty_view kind.now }
{
    match kind {
        TyKind::Array(element, length) => Parts::Two(Part::Ty(*element), Part::Const(*length)),
        TyKind::Pat(base, pat) => Parts::Two(Part::Ty(*base), Part::Pat(*pat)),
        TyKind::Slice(element) => Parts::One(Part::Ty(*element)),
        TyKind::RawPtr(pointee, _) => Parts::One(Part::Ty(*pointee)),
        TyKind::Ref(region, pointee, _) => Parts::Two(Part::Region(*region), Part::Ty(*pointee)),
        TyKind::Tuple(members) => Parts::Tys(*members),
        TyKind::FnPtr(types, header) => Parts::One(fn_ptr_part(types, header)),
        TyKind::UnsafeBinder(inner) => Parts::One(unsafe_part(inner)),
        TyKind::Dynamic(predicates, region) => {
            Parts::Two(Part::Object(*predicates), Part::Region(*region))
        }
        TyKind::Adt(_, args)
        | TyKind::FnDef(_, args)
        | TyKind::Closure(_, args)
        | TyKind::CoroutineClosure(_, args)
        | TyKind::Coroutine(_, args)
        | TyKind::CoroutineWitness(_, args) => Parts::Args(*args),
        TyKind::Alias(alias) => Parts::Args(alias.args),
        TyKind::Bool
        | TyKind::Char
        | TyKind::Int(_)
        | TyKind::Uint(_)
        | TyKind::Float(_)
        | TyKind::Foreign(_)
        | TyKind::Str
        | TyKind::Never
        | TyKind::Param(_)
        | TyKind::Bound(..)
        | TyKind::Placeholder(_)
        | TyKind::Infer(_)
        | TyKind::Error(_) => Parts::Empty,
    }
}

/// The parts of a constant, by its form.
pub fn const_parts<X: Copy, D: Copy, N>(kind: &ConstKind<X, D, N>) -> Parts<X, D>
    ensures { result ≡ const_view kind.now }
{
    match kind {
        ConstKind::Value(ty, value) => Parts::Two(Part::ValueType(*ty), Part::ValTree(*value)),
        ConstKind::Expr(_, args) => Parts::Args(*args),
        ConstKind::Unevaluated(constant) => Parts::Args(constant.args),
        ConstKind::Param(_)
        | ConstKind::Infer(_)
        | ConstKind::Bound(..)
        | ConstKind::Placeholder(_)
        | ConstKind::Error(_) => Parts::Empty,
    }
}

/// The parts of a value tree, by its form.
pub fn valtree_parts<X: Copy, D: Copy>(kind: &ValTreeKind<X>) -> Parts<X, D>
    ensures { result ≡ valtree_view kind.now }
{
    match kind {
        ValTreeKind::Branch(branches) => Parts::Branches(*branches),
        ValTreeKind::Leaf { .. } => Parts::Empty,
    }
}

/// The parts of a pattern, by its form.
pub fn pattern_parts<X: Copy, D: Copy>(kind: &PatternKind<X>) -> Parts<X, D>
    ensures { result ≡ pattern_view kind.now }
{
    match kind {
        PatternKind::Range { start, end } => Parts::Two(Part::Const(*start), Part::Const(*end)),
        PatternKind::Or(alternatives) => Parts::Alternatives(*alternatives),
        PatternKind::NotNull => Parts::Empty,
    }
}

/// The parts of a trait object's predicate, by its form.
pub fn existential_parts<X: Copy, D: Copy>(predicate: &ExistentialPredicate<X, D>) -> Parts<X, D>
    ensures { result ≡ existential_view predicate.now }
{
    match predicate {
        ExistentialPredicate::Trait(of) => Parts::Args(of.args),
        ExistentialPredicate::Projection(projection) => {
            Parts::TermArgs(projection.term, projection.args)
        }
        ExistentialPredicate::AutoTrait(_) => Parts::Empty,
    }
}

// The binder of a function pointer, as a part.
fn fn_ptr_part<X: Copy, D: Copy>(types: &Binder<X, FnSigTys<X>>, header: &FnHeader) -> Part<X, D>
    ensures { result ≡ BinderPart (types.now).bound_vars (SignatureBody (sig_of (types.now).value header.now)) }
{
    Part::Binder(types.bound_vars, Body::Signature(types.value.with(*header)))
}

// The binder of an unsafe binder, as a part.
fn unsafe_part<X: Copy, D: Copy>(inner: &Binder<X, TyKey<X>>) -> Part<X, D>
    ensures { result ≡ BinderPart (inner.now).bound_vars (TyBody (inner.now).value) }
{
    Part::Binder(inner.bound_vars, Body::Ty(inner.value))
}

// The function pointer over another binder.
fn fn_ptr_over<X: Copy, D: Copy, N: Copy>(
    types: &Binder<X, FnSigTys<X>>,
    header: &FnHeader,
    parts: &Parts<X, D>,
) -> TyKind<X, D, N>
    ensures { result ≡ ty_made (FnPtr types.now header.now) parts.now }
{
    let part = first_or(parts, fn_ptr_part(types, header));
    let sig = bound_signature_or(&part, &types.value.with(*header));
    let value = FnSigTys {
        inputs_and_output: sig.inputs_and_output,
    };
    let bound_vars = vars_or(&part, &types.bound_vars);
    TyKind::FnPtr(Binder { value, bound_vars }, sig.header)
}

// The unsafe binder over another binder.
fn unsafe_over<X: Copy, D: Copy, N: Copy>(
    inner: &Binder<X, TyKey<X>>,
    parts: &Parts<X, D>,
) -> TyKind<X, D, N>
    ensures { result ≡ ty_made (UnsafeBinder inner.now) parts.now }
{
    let part = first_or(parts, unsafe_part(inner));
    let value = bound_ty_or(&part, &inner.value);
    let bound_vars = vars_or(&part, &inner.bound_vars);
    TyKind::UnsafeBinder(Binder { value, bound_vars })
}

// The predicate of a trait object over other parts, alike to its own.
pub fn existential_over<X: Copy, D: Copy>(
    predicate: &ExistentialPredicate<X, D>,
    parts: &Parts<X, D>,
) -> ExistentialPredicate<X, D>
    ensures { result ≡ existential_made predicate.now parts.now }
{
    match predicate {
        ExistentialPredicate::Trait(of) => ExistentialPredicate::Trait(ExistentialTraitRef {
            def_id: of.def_id,
            args: args_or(parts, &of.args),
        }),
        ExistentialPredicate::Projection(projection) => {
            ExistentialPredicate::Projection(ExistentialProjection {
                def_id: projection.def_id,
                args: term_args_or(parts, &projection.args),
                term: term_or(parts, &projection.term),
            })
        }
        ExistentialPredicate::AutoTrait(_) => *predicate,
    }
}

// The array of another type and length.
fn array_over<X: Copy, D: Copy, N: Copy>(
    element: &TyKey<X>,
    length: &ConstKey<X>,
    parts: &Parts<X, D>,
) -> TyKind<X, D, N>
    ensures { result ≡ ty_made (Array element.now length.now) parts.now }
{
    TyKind::Array(
        ty_or(&first_or(parts, Part::Ty(*element)), element),
        const_or(&second_or(parts, Part::Const(*length)), length),
    )
}

// The raw pointer to another type.
fn raw_ptr_over<X: Copy, D: Copy, N: Copy>(
    pointee: &TyKey<X>,
    mutability: Mutability,
    parts: &Parts<X, D>,
) -> TyKind<X, D, N>
    ensures { result ≡ ty_made (RawPtr pointee.now mutability) parts.now }
{
    TyKind::RawPtr(
        ty_or(&first_or(parts, Part::Ty(*pointee)), pointee),
        mutability,
    )
}

// The reference of another region to another type.
fn ref_over<X: Copy, D: Copy, N: Copy>(
    region: &RegionKey<X>,
    pointee: &TyKey<X>,
    mutability: Mutability,
    parts: &Parts<X, D>,
) -> TyKind<X, D, N>
    ensures { result ≡ ty_made (Ref region.now pointee.now mutability) parts.now }
{
    TyKind::Ref(
        region_or(&first_or(parts, Part::Region(*region)), region),
        ty_or(&second_or(parts, Part::Ty(*pointee)), pointee),
        mutability,
    )
}

// The trait object of other predicates and another region.
fn dynamic_over<X: Copy, D: Copy, N: Copy>(
    predicates: &ExistentialPredicatesKey<X>,
    region: &RegionKey<X>,
    parts: &Parts<X, D>,
) -> TyKind<X, D, N>
    ensures { result ≡ ty_made (Dynamic predicates.now region.now) parts.now }
{
    TyKind::Dynamic(
        object_or(&first_or(parts, Part::Object(*predicates)), predicates),
        region_or(&second_or(parts, Part::Region(*region)), region),
    )
}

// The form of a type over other parts, alike to its own.
pub fn ty_over<X: Copy, D: Copy, N: Copy>(
    kind: &TyKind<X, D, N>,
    parts: &Parts<X, D>,
) -> TyKind<X, D, N>
    ensures { result ≡ ty_made kind.now parts.now }
{
    match kind {
        TyKind::Array(element, length) => array_over(element, length, parts),
        TyKind::Pat(base, pat) => TyKind::Pat(
            ty_or(&first_or(parts, Part::Ty(*base)), base),
            pat_or(&second_or(parts, Part::Pat(*pat)), pat),
        ),
        TyKind::Slice(element) => {
            TyKind::Slice(ty_or(&first_or(parts, Part::Ty(*element)), element))
        }
        TyKind::RawPtr(pointee, mutability) => raw_ptr_over(pointee, *mutability, parts),
        TyKind::Ref(region, pointee, mutability) => ref_over(region, pointee, *mutability, parts),
        TyKind::Tuple(members) => TyKind::Tuple(tys_or(parts, members)),
        TyKind::FnPtr(types, header) => fn_ptr_over(types, header, parts),
        TyKind::UnsafeBinder(inner) => unsafe_over(inner, parts),
        TyKind::Dynamic(predicates, region) => dynamic_over(predicates, region, parts),
        TyKind::Adt(def, args) => TyKind::Adt(*def, args_or(parts, args)),
        TyKind::FnDef(def, args) => TyKind::FnDef(*def, args_or(parts, args)),
        TyKind::Closure(def, args) => TyKind::Closure(*def, args_or(parts, args)),
        TyKind::CoroutineClosure(def, args) => TyKind::CoroutineClosure(*def, args_or(parts, args)),
        TyKind::Coroutine(def, args) => TyKind::Coroutine(*def, args_or(parts, args)),
        TyKind::CoroutineWitness(def, args) => TyKind::CoroutineWitness(*def, args_or(parts, args)),
        TyKind::Alias(alias) => TyKind::Alias(AliasTy {
            kind: alias.kind,
            args: args_or(parts, &alias.args),
        }),
        TyKind::Bool
        | TyKind::Char
        | TyKind::Int(_)
        | TyKind::Uint(_)
        | TyKind::Float(_)
        | TyKind::Foreign(_)
        | TyKind::Str
        | TyKind::Never
        | TyKind::Param(_)
        | TyKind::Bound(..)
        | TyKind::Placeholder(_)
        | TyKind::Infer(_)
        | TyKind::Error(_) => *kind,
    }
}

// The form of a constant over other parts, alike to its own.
pub fn const_over<X: Copy, D: Copy, N: Copy>(
    kind: &ConstKind<X, D, N>,
    parts: &Parts<X, D>,
) -> ConstKind<X, D, N>
    ensures { result ≡ const_made kind.now parts.now }
{
    match kind {
        ConstKind::Value(ty, value) => ConstKind::Value(
            value_type_or(&first_or(parts, Part::ValueType(*ty)), ty),
            valtree_or(&second_or(parts, Part::ValTree(*value)), value),
        ),
        ConstKind::Expr(kind, args) => ConstKind::Expr(*kind, args_or(parts, args)),
        ConstKind::Unevaluated(constant) => ConstKind::Unevaluated(UnevaluatedConst {
            def: constant.def,
            args: args_or(parts, &constant.args),
        }),
        ConstKind::Param(_)
        | ConstKind::Infer(_)
        | ConstKind::Bound(..)
        | ConstKind::Placeholder(_)
        | ConstKind::Error(_) => *kind,
    }
}

// The form of a value tree over other parts, alike to its own.
pub fn valtree_over<X: Copy, D: Copy>(kind: &ValTreeKind<X>, parts: &Parts<X, D>) -> ValTreeKind<X>
    ensures { result ≡ valtree_made kind.now parts.now }
{
    match kind {
        ValTreeKind::Branch(branches) => ValTreeKind::Branch(branches_or(parts, branches)),
        ValTreeKind::Leaf { .. } => *kind,
    }
}

// The form of a pattern over other parts, alike to its own.
pub fn pattern_over<X: Copy, D: Copy>(kind: &PatternKind<X>, parts: &Parts<X, D>) -> PatternKind<X>
    ensures { result ≡ pattern_made kind.now parts.now }
{
    match kind {
        PatternKind::Range { start, end } => PatternKind::Range {
            start: const_or(&first_or(parts, Part::Const(*start)), start),
            end: const_or(&second_or(parts, Part::Const(*end)), end),
        },
        PatternKind::Or(alternatives) => PatternKind::Or(alternatives_or(parts, alternatives)),
        PatternKind::NotNull => *kind,
    }
}
