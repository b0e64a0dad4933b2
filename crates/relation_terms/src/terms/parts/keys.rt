//! Parts and lists of parts of which one knows the sort, as keys; and keys as parts.
ghost use Rattle.std.specs.Prelude.{◌≡◌, ◌↔◌, IsTrue, [], ◌∷◌, Option};
ghost use Rattle.relation_terms.specs.Heads.{region_sort, type_sort, const_sort, value_sort};
ghost use Rattle.relation_terms.specs.Trees.{known};
ghost use Rattle.relation_terms.specs.Parts.{part_of_arg, part_sort, part_key, part_tree};
ghost use Rattle.relation_terms.specs.Heads.{pattern_sort, inputs_sort, signature_sort, existential_sort};
ghost use Rattle.relation_terms.specs.Parts.{IsInputs, IsPredicates};
ghost use Rattle.relation_terms.specs.declared.terms.part_kind.Part.TheVariants.{Inputs as InputsPart};
ghost use Rattle.relation_terms.specs.declared.terms.part_kind.Part.TheVariants.{Signature as SignaturePart};
ghost use Rattle.relation_terms.specs.declared.terms.part_kind.Part.TheVariants.{Existential as ExistentialPart};
ghost use Rattle.relation_terms.specs.declared.terms.part_kind.Parts.TheVariants.{Inputs as InputsParts};
ghost use Rattle.relation_terms.specs.declared.terms.part_kind.Parts.TheVariants.{Predicates as PredicatesParts};
ghost use Rattle.relation_terms.specs.Parts.{AreArgs, IsArgs, IsTys, IsBranches, IsAlternatives};
ghost use Rattle.relation_terms.specs.Parts.{pat_in, alternatives_in, HasKey, IsTermPart, part_of_term, part_of_body};
ghost use Rattle.relation_terms.specs.Parts.{part_of_predicate, object_in, vars_in, bound_signature_in, bound_ty_in};
ghost use Rattle.relation_terms.specs.Parts.{body_in, term_in, term_args_in, ArePredicates, body_tree, body_sort};
ghost use Rattle.relation_terms.specs.declared.terms.part_kind.Part.TheVariants.{Pat as PatPart};
ghost use Rattle.relation_terms.specs.declared.terms.part_kind.Parts.TheVariants.{Alternatives as AlternativesParts};
ghost use Rattle.relation_terms.specs.Parts.{region_in, ty_in, const_in, valtree_in, value_type_in};
ghost use Rattle.relation_terms.specs.Parts.{first_in, second_in, args_in, tys_in, branches_in};
ghost use Rattle.relation_terms.specs.declared.terms.part_kind.Part.TheVariants.{Region as RegionPart, Ty as TyPart};
ghost use Rattle.relation_terms.specs.declared.terms.part_kind.Part.TheVariants.{Const as ConstPart};
ghost use Rattle.relation_terms.specs.declared.terms.part_kind.Part.TheVariants.{ValTree as ValTreePart};
ghost use Rattle.relation_terms.specs.declared.terms.part_kind.Parts.TheVariants.{Args as ArgsParts, Tys as TysParts};
ghost use Rattle.relation_terms.specs.declared.terms.part_kind.Parts.TheVariants.{Branches as BranchesParts};

use crate::predicate::{ExistentialPredicate, ExistentialProjection, ExistentialTraitRef};
use crate::terms::{
    AlternativesKey, ArgsKey, Binder, Body, BoundVarsKey, BranchesKey, ConstKey,
    ExistentialPredicatesKey, FnSig, GenericArgKind, Interner, Part, PartOf, Parts, PatKey,
    RegionKey, TermKind, TyKey, TysKey, ValTreeKey,
};

// The key of a part, if it has one of its own.
#[inline(always)]
pub fn key_of<X: Copy, D: Copy>(part: &Part<X, D>) -> Option<X>
    ensures { result ≡ part_key part.now }
{
    match part {
        Part::Region(region) => Some(region.0),
        Part::Ty(ty) => Some(ty.0),
        Part::Const(constant) => Some(constant.0),
        Part::ValTree(valtree) => Some(valtree.0),
        Part::Pat(pat) => Some(pat.0),
        Part::ValueType(ty) => Some(ty.0),
        Part::Object(predicates) => Some(predicates.0),
        Part::Binder(..) | Part::Signature(_) | Part::Inputs(_) | Part::Existential(_) => None,
    }
}

/// A generic argument as a part.
pub fn of_arg<X: Copy, D: Copy>(arg: &GenericArgKind<X>) -> Part<X, D>
    ensures { result ≡ part_of_arg arg.now }
{
    match arg {
        GenericArgKind::Lifetime(region) => Part::Region(*region),
        GenericArgKind::Ty(ty) => Part::Ty(*ty),
        GenericArgKind::Const(constant) => Part::Const(*constant),
    }
}

// A term of a predicate as a part.
pub fn of_term<X: Copy, D: Copy>(term: &TermKind<X>) -> Part<X, D>
    ensures { result ≡ part_of_term term.now }
{
    match term {
        TermKind::Ty(ty) => Part::Ty(*ty),
        TermKind::Const(constant) => Part::Const(*constant),
    }
}

// A predicate of a trait object as a part.
pub fn of_predicate<X: Copy, D: Copy>(
    predicate: &Binder<X, ExistentialPredicate<X, D>>,
) -> Part<X, D>
    ensures { result ≡ part_of_predicate predicate.now }
{
    Part::Binder(predicate.bound_vars, Body::Existential(predicate.value))
}

// A body as a part.
pub fn of_body<X: Copy, D: Copy>(body: &Body<X, D>) -> Part<X, D>
    ensures { result ≡ part_of_body body.now }
{
    match body {
        Body::Signature(sig) => Part::Signature(*sig),
        Body::Ty(ty) => Part::Ty(*ty),
        Body::Existential(predicate) => Part::Existential(*predicate),
    }
}

// The term of a predicate that a part is.
pub fn expect_term<X: Copy, D: Copy>(part: &Part<X, D>) -> TermKind<X>
    requires { IsTermPart part.now }
    ensures { part_of_term result ≡ part.now }
{
    match part {
        Part::Ty(ty) => TermKind::Ty(*ty),
        Part::Const(constant) => TermKind::Const(*constant),
        _ => unreachable!(),
    }
}

// The predicate of a trait object that a part is.
pub fn expect_predicate<X: Copy, D: Copy>(
    part: &Part<X, D>,
) -> Binder<X, ExistentialPredicate<X, D>>
    requires { ArePredicates (part.now ∷ []) }
    ensures { part_of_predicate result ≡ part.now }
{
    match part {
        Part::Binder(bound_vars, Body::Existential(predicate)) => Binder {
            value: *predicate,
            bound_vars: *bound_vars,
        },
        _ => unreachable!(),
    }
}

/// The generic argument that a part is.
pub fn expect_arg<X: Copy, D: Copy>(part: &Part<X, D>) -> GenericArgKind<X>
    requires { AreArgs (part.now ∷ []) }
    ensures { part_of_arg result ≡ part.now }
{
    match part {
        Part::Region(region) => GenericArgKind::Lifetime(*region),
        Part::Ty(ty) => GenericArgKind::Ty(*ty),
        Part::Const(constant) => GenericArgKind::Const(*constant),
        _ => unreachable!(),
    }
}

/// The region that a part is.
pub fn expect_region<X: Copy, D: Copy>(part: &Part<X, D>) -> RegionKey<X>
    requires { part_sort part.now ≡ region_sort }
    ensures { RegionPart result ≡ part.now }
{
    match part {
        Part::Region(region) => *region,
        _ => unreachable!(),
    }
}

/// The type that a part is.
pub fn expect_ty<X: Copy, D: Copy>(part: &Part<X, D>) -> TyKey<X>
    requires { part_sort part.now ≡ type_sort }
    ensures { TyPart result ≡ part.now }
{
    match part {
        Part::Ty(ty) => *ty,
        _ => unreachable!(),
    }
}

/// The constant that a part is.
pub fn expect_const<X: Copy, D: Copy>(part: &Part<X, D>) -> ConstKey<X>
    requires { part_sort part.now ≡ const_sort }
    ensures { ConstPart result ≡ part.now }
{
    match part {
        Part::Const(constant) => *constant,
        _ => unreachable!(),
    }
}

/// The value tree that a part is.
pub fn expect_valtree<X: Copy, D: Copy>(part: &Part<X, D>) -> ValTreeKey<X>
    requires { part_sort part.now ≡ value_sort }
    ensures { ValTreePart result ≡ part.now }
{
    match part {
        Part::ValTree(valtree) => *valtree,
        _ => unreachable!(),
    }
}

/// The list of types whose inputs a part is.
pub fn expect_inputs<X: Copy, D: Copy>(part: &Part<X, D>) -> TysKey<X>
    requires { part_sort part.now ≡ inputs_sort }
    ensures { InputsPart result ≡ part.now }
{
    match part {
        Part::Inputs(types) => *types,
        _ => unreachable!(),
    }
}

/// The signature that a part is.
pub fn expect_signature<X: Copy, D: Copy>(part: &Part<X, D>) -> FnSig<X>
    requires { part_sort part.now ≡ signature_sort }
    ensures { SignaturePart result ≡ part.now }
{
    match part {
        Part::Signature(sig) => *sig,
        _ => unreachable!(),
    }
}

/// The predicate of a trait object that a part is.
pub fn expect_existential<X: Copy, D: Copy>(part: &Part<X, D>) -> ExistentialPredicate<X, D>
    requires { part_sort part.now ≡ existential_sort }
    ensures { ExistentialPart result ≡ part.now }
{
    match part {
        Part::Existential(predicate) => *predicate,
        _ => unreachable!(),
    }
}

/// The pattern that a part is.
pub fn expect_pat<X: Copy, D: Copy>(part: &Part<X, D>) -> PatKey<X>
    requires { part_sort part.now ≡ pattern_sort }
    ensures { PatPart result ≡ part.now }
{
    match part {
        Part::Pat(pat) => *pat,
        _ => unreachable!(),
    }
}

/// The list of arguments that a list of parts is.
pub fn expect_args<X: Copy, D: Copy>(parts: &Parts<X, D>) -> ArgsKey<X>
    requires { IsArgs parts.now }
    ensures { ArgsParts result ≡ parts.now }
{
    match parts {
        Parts::Args(args) => *args,
        _ => unreachable!(),
    }
}

/// The list of types that a list of parts is.
pub fn expect_tys<X: Copy, D: Copy>(parts: &Parts<X, D>) -> TysKey<X>
    requires { IsTys parts.now }
    ensures { TysParts result ≡ parts.now }
{
    match parts {
        Parts::Tys(tys) => *tys,
        _ => unreachable!(),
    }
}

/// The list of constants that a list of parts is.
pub fn expect_branches<X: Copy, D: Copy>(parts: &Parts<X, D>) -> BranchesKey<X>
    requires { IsBranches parts.now }
    ensures { BranchesParts result ≡ parts.now }
{
    match parts {
        Parts::Branches(branches) => *branches,
        _ => unreachable!(),
    }
}

/// The list of patterns that a list of parts is.
pub fn expect_alternatives<X: Copy, D: Copy>(parts: &Parts<X, D>) -> AlternativesKey<X>
    requires { IsAlternatives parts.now }
    ensures { AlternativesParts result ≡ parts.now }
{
    match parts {
        Parts::Alternatives(alternatives) => *alternatives,
        _ => unreachable!(),
    }
}

/// The list of types whose inputs a list of parts is.
pub fn expect_input_types<X: Copy, D: Copy>(parts: &Parts<X, D>) -> TysKey<X>
    requires { IsInputs parts.now }
    ensures { InputsParts result ≡ parts.now }
{
    match parts {
        Parts::Inputs(types) => *types,
        _ => unreachable!(),
    }
}

/// The list of a trait object's predicates that a list of parts is.
pub fn expect_predicates<X: Copy, D: Copy>(parts: &Parts<X, D>) -> ExistentialPredicatesKey<X>
    requires { IsPredicates parts.now }
    ensures { PredicatesParts result ≡ parts.now }
{
    match parts {
        Parts::Predicates(predicates) => *predicates,
        _ => unreachable!(),
    }
}

// The key of a part, or the given one where the part is of another sort.
pub fn region_or<X: Copy, D: Copy>(part: &Part<X, D>, other: &RegionKey<X>) -> RegionKey<X>
    ensures { result ≡ region_in part.now other.now }
{
    match part {
        Part::Region(key) => *key,
        _ => *other,
    }
}

pub fn ty_or<X: Copy, D: Copy>(part: &Part<X, D>, other: &TyKey<X>) -> TyKey<X>
    ensures { result ≡ ty_in part.now other.now }
{
    match part {
        Part::Ty(key) => *key,
        _ => *other,
    }
}

pub fn const_or<X: Copy, D: Copy>(part: &Part<X, D>, other: &ConstKey<X>) -> ConstKey<X>
    ensures { result ≡ const_in part.now other.now }
{
    match part {
        Part::Const(key) => *key,
        _ => *other,
    }
}

pub fn valtree_or<X: Copy, D: Copy>(part: &Part<X, D>, other: &ValTreeKey<X>) -> ValTreeKey<X>
    ensures { result ≡ valtree_in part.now other.now }
{
    match part {
        Part::ValTree(key) => *key,
        _ => *other,
    }
}

pub fn pat_or<X: Copy, D: Copy>(part: &Part<X, D>, other: &PatKey<X>) -> PatKey<X>
    ensures { result ≡ pat_in part.now other.now }
{
    match part {
        Part::Pat(key) => *key,
        _ => *other,
    }
}

pub fn value_type_or<X: Copy, D: Copy>(part: &Part<X, D>, other: &TyKey<X>) -> TyKey<X>
    ensures { result ≡ value_type_in part.now other.now }
{
    match part {
        Part::ValueType(key) => *key,
        _ => *other,
    }
}

pub fn object_or<X: Copy, D: Copy>(
    part: &Part<X, D>,
    other: &ExistentialPredicatesKey<X>,
) -> ExistentialPredicatesKey<X>
    ensures { result ≡ object_in part.now other.now }
{
    match part {
        Part::Object(key) => *key,
        _ => *other,
    }
}

// What a binder has, or the given one where the part is no binder, or one over another body.
pub fn vars_or<X: Copy, D: Copy>(part: &Part<X, D>, other: &BoundVarsKey<X>) -> BoundVarsKey<X>
    ensures { result ≡ vars_in part.now other.now }
{
    match part {
        Part::Binder(vars, _) => *vars,
        _ => *other,
    }
}

pub fn bound_signature_or<X: Copy, D: Copy>(part: &Part<X, D>, other: &FnSig<X>) -> FnSig<X>
    ensures { result ≡ bound_signature_in part.now other.now }
{
    match part {
        Part::Binder(_, Body::Signature(sig)) => *sig,
        _ => *other,
    }
}

pub fn bound_ty_or<X: Copy, D: Copy>(part: &Part<X, D>, other: &TyKey<X>) -> TyKey<X>
    ensures { result ≡ bound_ty_in part.now other.now }
{
    match part {
        Part::Binder(_, Body::Ty(ty)) => *ty,
        _ => *other,
    }
}

// The body that a part is, or the given one.
pub fn body_or<X: Copy, D: Copy>(part: &Part<X, D>, other: &Body<X, D>) -> Body<X, D>
    ensures { result ≡ body_in part.now other.now }
{
    match part {
        Part::Signature(sig) => Body::Signature(*sig),
        Part::Ty(ty) => Body::Ty(*ty),
        Part::Existential(predicate) => Body::Existential(*predicate),
        _ => *other,
    }
}

// What stands at a place of a list of parts, or the given one where no part of its own stands there.
pub fn first_or<X: Copy, D: Copy>(parts: &Parts<X, D>, other: Part<X, D>) -> Part<X, D>
    ensures { result ≡ first_in parts.now other }
{
    match parts {
        Parts::One(part) => *part,
        Parts::Two(part, _) => *part,
        _ => other,
    }
}

pub fn second_or<X: Copy, D: Copy>(parts: &Parts<X, D>, other: Part<X, D>) -> Part<X, D>
    ensures { result ≡ second_in parts.now other }
{
    match parts {
        Parts::Two(_, part) => *part,
        _ => other,
    }
}

// The key of a list of parts, or the given one where the list is another.
pub fn args_or<X: Copy, D: Copy>(parts: &Parts<X, D>, other: &ArgsKey<X>) -> ArgsKey<X>
    ensures { result ≡ args_in parts.now other.now }
{
    match parts {
        Parts::Args(key) => *key,
        _ => *other,
    }
}

pub fn term_or<X: Copy, D: Copy>(parts: &Parts<X, D>, other: &TermKind<X>) -> TermKind<X>
    ensures { result ≡ term_in parts.now other.now }
{
    match parts {
        Parts::TermArgs(term, _) => *term,
        _ => *other,
    }
}

pub fn term_args_or<X: Copy, D: Copy>(parts: &Parts<X, D>, other: &ArgsKey<X>) -> ArgsKey<X>
    ensures { result ≡ term_args_in parts.now other.now }
{
    match parts {
        Parts::TermArgs(_, args) => *args,
        _ => *other,
    }
}

pub fn tys_or<X: Copy, D: Copy>(parts: &Parts<X, D>, other: &TysKey<X>) -> TysKey<X>
    ensures { result ≡ tys_in parts.now other.now }
{
    match parts {
        Parts::Tys(key) => *key,
        _ => *other,
    }
}

pub fn branches_or<X: Copy, D: Copy>(parts: &Parts<X, D>, other: &BranchesKey<X>) -> BranchesKey<X>
    ensures { result ≡ branches_in parts.now other.now }
{
    match parts {
        Parts::Branches(key) => *key,
        _ => *other,
    }
}

pub fn alternatives_or<X: Copy, D: Copy>(
    parts: &Parts<X, D>,
    other: &AlternativesKey<X>,
) -> AlternativesKey<X>
    ensures { result ≡ alternatives_in parts.now other.now }
{
    match parts {
        Parts::Alternatives(key) => *key,
        _ => *other,
    }
}
