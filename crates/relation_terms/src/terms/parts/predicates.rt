//! Predicates: the one place that knows where the types, regions and constants of each form stand.
//!
//! A form has at most two fields that have any. They are its parts, in the form's order; they stand under the binder
//! that the clause or predicate is bound by, one binder deeper than it.
ghost use Rattle.std.specs.Prelude.{◌≡◌, IsTrue, IfOk, OnErr};
ghost use Rattle.relation_terms.specs.Trees.{known};
ghost use Rattle.relation_terms.specs.Meaning.{Extends};
ghost use Rattle.relation_terms.specs.Fields.{field_of_term, clause_view, predicate_view, clause_made, predicate_made};
ghost use Rattle.relation_terms.specs.Fields.{region_field, ty_field, const_field, term_field, trait_ref_field};
ghost use Rattle.relation_terms.specs.Fields.{alias_term_field};
ghost use Rattle.relation_terms.specs.declared.terms.parts.predicates.Field.TheVariants.{AliasTerm as AliasTermField};
ghost use Rattle.relation_terms.specs.declared.terms.parts.predicates.Field.TheVariants.{TraitRef as TraitRefField};
ghost use Rattle.relation_terms.specs.Fields.{first_field, second_field, fields_tree, FitFields, parts_under};
ghost use Rattle.relation_terms.specs.Fields.{MakesClauseOver, MakesPredicateOver};

use crate::predicate::{
    AliasTerm, ClauseKind, CoercePredicate, HostEffectPredicate, NormalizesTo, OutlivesPredicate,
    PredicateKind, ProjectionPredicate, SubtypePredicate, TraitPredicate, TraitRef,
};
use crate::terms::{
    Binder, Clause, ConstKey, Interner, Keys, OutOfMemory, Predicate, RegionKey, TermKind, TyKey,
};
use std::alloc::AllocError;

/// A part of a predicate. The parts of a trait with its arguments, and of an alias with its own, are the arguments.
pub enum Field<X, D> {
    Region(RegionKey<X>),
    Ty(TyKey<X>),
    Const(ConstKey<X>),
    TraitRef(TraitRef<X, D>),
    AliasTerm(AliasTerm<X, D>),
}

/// The parts of a predicate, in the form's order.
pub enum Fields<X, D> {
    Empty,
    One(Field<X, D>),
    Two(Field<X, D>, Field<X, D>),
}

/// The parts of an interner's clause or predicate.
pub type FieldsOf<I> = Fields<<I as Keys>::Key, <I as Keys>::Id>;

// A term of a predicate as a part.
fn of_term<X: Copy, D: Copy>(term: &TermKind<X>) -> Field<X, D>
    ensures { result ≡ field_of_term term.now }
{
    match term {
        TermKind::Ty(ty) => Field::Ty(*ty),
        TermKind::Const(constant) => Field::Const(*constant),
    }
}

/// The parts of a clause, by its form.
pub fn clause_fields<X: Copy, D: Copy, N>(kind: &ClauseKind<X, D, N>) -> Fields<X, D>
    ensures { result ≡ clause_view kind.now }
{
    match kind {
        ClauseKind::Trait(of) => Fields::One(Field::TraitRef(of.trait_ref)),
        ClauseKind::RegionOutlives(of) => Fields::Two(Field::Region(of.0), Field::Region(of.1)),
        ClauseKind::TypeOutlives(of) => Fields::Two(Field::Ty(of.0), Field::Region(of.1)),
        ClauseKind::Projection(of) => {
            Fields::Two(Field::AliasTerm(of.projection_term), of_term(&of.term))
        }
        ClauseKind::ConstArgHasType(constant, ty) => {
            Fields::Two(Field::Const(*constant), Field::Ty(*ty))
        }
        ClauseKind::WellFormed(term) => Fields::One(of_term(term)),
        ClauseKind::ConstEvaluatable(constant) => Fields::One(Field::Const(*constant)),
        ClauseKind::HostEffect(of) => Fields::One(Field::TraitRef(of.trait_ref)),
        ClauseKind::UnstableFeature(_) => Fields::Empty,
    }
}

/// The parts of a predicate, by its form.
pub fn predicate_fields<X: Copy, D: Copy, N>(kind: &PredicateKind<X, D, N>) -> Fields<X, D>
    ensures { result ≡ predicate_view kind.now }
{
    match kind {
        PredicateKind::Clause(clause) => clause_fields(clause),
        PredicateKind::Subtype(of) => Fields::Two(Field::Ty(of.a), Field::Ty(of.b)),
        PredicateKind::Coerce(of) => Fields::Two(Field::Ty(of.a), Field::Ty(of.b)),
        PredicateKind::NormalizesTo(of) => {
            Fields::Two(Field::AliasTerm(of.alias), of_term(&of.term))
        }
        PredicateKind::AliasRelate(a, b, _) => Fields::Two(of_term(a), of_term(b)),
        PredicateKind::Ambiguous => Fields::Empty,
    }
}

// What a part is, or the given one where the part is of another sort.
fn region_or<X: Copy, D: Copy>(field: &Field<X, D>, other: &RegionKey<X>) -> RegionKey<X>
    ensures { result ≡ region_field field.now other.now }
{
    match field {
        Field::Region(key) => *key,
        _ => *other,
    }
}

fn ty_or<X: Copy, D: Copy>(field: &Field<X, D>, other: &TyKey<X>) -> TyKey<X>
    ensures { result ≡ ty_field field.now other.now }
{
    match field {
        Field::Ty(key) => *key,
        _ => *other,
    }
}

fn const_or<X: Copy, D: Copy>(field: &Field<X, D>, other: &ConstKey<X>) -> ConstKey<X>
    ensures { result ≡ const_field field.now other.now }
{
    match field {
        Field::Const(key) => *key,
        _ => *other,
    }
}

fn term_or<X: Copy, D: Copy>(field: &Field<X, D>, other: &TermKind<X>) -> TermKind<X>
    ensures { result ≡ term_field field.now other.now }
{
    match field {
        Field::Ty(key) => TermKind::Ty(*key),
        Field::Const(key) => TermKind::Const(*key),
        _ => *other,
    }
}

fn trait_ref_or<X: Copy, D: Copy>(field: &Field<X, D>, other: &TraitRef<X, D>) -> TraitRef<X, D>
    ensures { result ≡ trait_ref_field field.now other.now }
{
    match field {
        Field::TraitRef(of) => *of,
        _ => *other,
    }
}

fn alias_term_or<X: Copy, D: Copy>(field: &Field<X, D>, other: &AliasTerm<X, D>) -> AliasTerm<X, D>
    ensures { result ≡ alias_term_field field.now other.now }
{
    match field {
        Field::AliasTerm(of) => *of,
        _ => *other,
    }
}

// What stands at a place, or the given one where nothing stands there.
fn first_or<X: Copy, D: Copy>(fields: &Fields<X, D>, other: Field<X, D>) -> Field<X, D>
    ensures { result ≡ first_field fields.now other }
{
    match fields {
        Fields::One(field) => *field,
        Fields::Two(field, _) => *field,
        Fields::Empty => other,
    }
}

fn second_or<X: Copy, D: Copy>(fields: &Fields<X, D>, other: Field<X, D>) -> Field<X, D>
    ensures { result ≡ second_field fields.now other }
{
    match fields {
        Fields::Two(_, field) => *field,
        _ => other,
    }
}

/// The form of a clause over other parts, alike to its own.
pub fn clause_over<X: Copy, D: Copy, N: Copy>(
    kind: &ClauseKind<X, D, N>,
    fields: &Fields<X, D>,
) -> ClauseKind<X, D, N>
    ensures { result ≡ clause_made kind.now fields.now }
{
    match kind {
        ClauseKind::Trait(of) => ClauseKind::Trait(trait_over(of, fields)),
        ClauseKind::RegionOutlives(of) => ClauseKind::RegionOutlives(OutlivesPredicate(
            region_or(&first_or(fields, Field::Region(of.0)), &of.0),
            region_or(&second_or(fields, Field::Region(of.1)), &of.1),
        )),
        ClauseKind::TypeOutlives(of) => ClauseKind::TypeOutlives(OutlivesPredicate(
            ty_or(&first_or(fields, Field::Ty(of.0)), &of.0),
            region_or(&second_or(fields, Field::Region(of.1)), &of.1),
        )),
        ClauseKind::Projection(of) => ClauseKind::Projection(projection_over(of, fields)),
        ClauseKind::ConstArgHasType(constant, ty) => ClauseKind::ConstArgHasType(
            const_or(&first_or(fields, Field::Const(*constant)), constant),
            ty_or(&second_or(fields, Field::Ty(*ty)), ty),
        ),
        ClauseKind::WellFormed(term) => {
            ClauseKind::WellFormed(term_or(&first_or(fields, of_term(term)), term))
        }
        ClauseKind::ConstEvaluatable(constant) => ClauseKind::ConstEvaluatable(const_or(
            &first_or(fields, Field::Const(*constant)),
            constant,
        )),
        ClauseKind::HostEffect(of) => ClauseKind::HostEffect(host_effect_over(of, fields)),
        ClauseKind::UnstableFeature(_) => *kind,
    }
}

// What a clause says of a trait, over other parts.
fn trait_over<X: Copy, D: Copy>(
    of: &TraitPredicate<X, D>,
    fields: &Fields<X, D>,
) -> TraitPredicate<X, D>
    ensures trait_ref { let d = TraitRefField of.now.trait_ref in
        result.trait_ref ≡ trait_ref_field (first_field fields.now d) of.now.trait_ref }
    ensures polarity { result.polarity ≡ of.now.polarity }
{
    let of_trait = &of.trait_ref;
    TraitPredicate {
        trait_ref: trait_ref_or(&first_or(fields, Field::TraitRef(*of_trait)), of_trait),
        polarity: of.polarity,
    }
}

fn host_effect_over<X: Copy, D: Copy>(
    of: &HostEffectPredicate<X, D>,
    fields: &Fields<X, D>,
) -> HostEffectPredicate<X, D>
    ensures trait_ref { let d = TraitRefField of.now.trait_ref in
        result.trait_ref ≡ trait_ref_field (first_field fields.now d) of.now.trait_ref }
    ensures constness { result.constness ≡ of.now.constness }
{
    let of_trait = &of.trait_ref;
    HostEffectPredicate {
        trait_ref: trait_ref_or(&first_or(fields, Field::TraitRef(*of_trait)), of_trait),
        constness: of.constness,
    }
}

// What an alias comes to, over other parts.
fn projection_over<X: Copy, D: Copy>(
    of: &ProjectionPredicate<X, D>,
    fields: &Fields<X, D>,
) -> ProjectionPredicate<X, D>
    ensures alias { let d = AliasTermField of.now.projection_term in
        result.projection_term ≡ alias_term_field (first_field fields.now d) of.now.projection_term }
    ensures term { result.term ≡ term_field (second_field fields.now (field_of_term of.now.term)) of.now.term }
{
    let alias = &of.projection_term;
    ProjectionPredicate {
        projection_term: alias_term_or(&first_or(fields, Field::AliasTerm(*alias)), alias),
        term: term_or(&second_or(fields, of_term(&of.term)), &of.term),
    }
}

/// The form of a predicate over other parts, alike to its own.
pub fn predicate_over<X: Copy, D: Copy, N: Copy>(
    kind: &PredicateKind<X, D, N>,
    fields: &Fields<X, D>,
) -> PredicateKind<X, D, N>
    ensures { result ≡ predicate_made kind.now fields.now }
{
    match kind {
        PredicateKind::Clause(clause) => PredicateKind::Clause(clause_over(clause, fields)),
        PredicateKind::Subtype(of) => PredicateKind::Subtype(SubtypePredicate {
            a_is_expected: of.a_is_expected,
            a: ty_or(&first_or(fields, Field::Ty(of.a)), &of.a),
            b: ty_or(&second_or(fields, Field::Ty(of.b)), &of.b),
        }),
        PredicateKind::Coerce(of) => PredicateKind::Coerce(CoercePredicate {
            a: ty_or(&first_or(fields, Field::Ty(of.a)), &of.a),
            b: ty_or(&second_or(fields, Field::Ty(of.b)), &of.b),
        }),
        PredicateKind::NormalizesTo(of) => PredicateKind::NormalizesTo(NormalizesTo {
            alias: alias_term_or(&first_or(fields, Field::AliasTerm(of.alias)), &of.alias),
            term: term_or(&second_or(fields, of_term(&of.term)), &of.term),
        }),
        PredicateKind::AliasRelate(a, b, direction) => PredicateKind::AliasRelate(
            term_or(&first_or(fields, of_term(a)), a),
            term_or(&second_or(fields, of_term(b)), b),
            *direction,
        ),
        PredicateKind::Ambiguous => *kind,
    }
}

/// The parts of a clause, which stand under its binder. The interner has to know the clause, and knows the parts too.
pub fn fields_of_clause<I: Interner>(cx: &I, clause: &Clause<I>) -> FieldsOf<I>
    requires { IsTrue (known ((I.meaning cx.now).clause clause.now)) }
    ensures sure { IsTrue (known (fields_tree (I.meaning cx.now) result)) }
    ensures means { fields_tree (I.meaning cx.now) result ≡ parts_under ((I.meaning cx.now).clause clause.now) }
{
    clause_fields(&cx.clause_kind(clause).value)
}

/// The parts of a predicate, which stand under its binder. The interner has to know the predicate, and knows the parts
/// too.
pub fn fields_of_predicate<I: Interner>(cx: &I, predicate: &Predicate<I>) -> FieldsOf<I>
    requires { IsTrue (known ((I.meaning cx.now).predicate predicate.now)) }
    ensures sure { IsTrue (known (fields_tree (I.meaning cx.now) result)) }
    ensures means { fields_tree (I.meaning cx.now) result ≡ parts_under ((I.meaning cx.now).predicate predicate.now) }
{
    predicate_fields(&cx.predicate_kind(predicate).value)
}

/// The clause of that one's form over these parts, as many as it has and each of the sort of the part at its place,
/// under that one's binder.
///
/// The interner has to know the clause and the parts. Answers `OutOfMemory` where a growth was refused, which leaves
/// the meaning of all keys as it was.
pub fn clause_with_fields<I: Interner>(
    cx: &mut I,
    clause: &Clause<I>,
    fields: &FieldsOf<I>,
) -> Result<Clause<I>, OutOfMemory>
    requires clause_known { IsTrue (known ((I.meaning cx.old).clause clause.now)) }
    requires fields_known { IsTrue (known (fields_tree (I.meaning cx.old) fields.now)) }
    requires fits { FitFields fields.now (parts_under ((I.meaning cx.old).clause clause.now)) }
    ensures grown { Extends (I.meaning cx.old) (I.meaning cx.new) }
    ensures sure { IfOk result (λ k. IsTrue (known ((I.meaning cx.new).clause k))) }
    ensures made { MakesClauseOver (I.meaning cx.old) (I.meaning cx.new) clause.now fields.now result }
    ensures refused { OnErr result (I.meaning cx.new ≡ I.meaning cx.old) }
{
    let Binder { value, bound_vars } = cx.clause_kind(clause);
    let value = clause_over(&value, fields);
    cx.mk_clause(Binder { value, bound_vars })
}

/// The predicate of that one's form over these parts, as many as it has and each of the sort of the part at its place,
/// under that one's binder.
///
/// The interner has to know the predicate and the parts. Answers `OutOfMemory` where a growth was refused, which leaves
/// the meaning of all keys as it was.
pub fn predicate_with_fields<I: Interner>(
    cx: &mut I,
    predicate: &Predicate<I>,
    fields: &FieldsOf<I>,
) -> Result<Predicate<I>, OutOfMemory>
    requires predicate_known { IsTrue (known ((I.meaning cx.old).predicate predicate.now)) }
    requires fields_known { IsTrue (known (fields_tree (I.meaning cx.old) fields.now)) }
    requires fits { FitFields fields.now (parts_under ((I.meaning cx.old).predicate predicate.now)) }
    ensures grown { Extends (I.meaning cx.old) (I.meaning cx.new) }
    ensures sure { IfOk result (λ k. IsTrue (known ((I.meaning cx.new).predicate k))) }
    ensures made { MakesPredicateOver (I.meaning cx.old) (I.meaning cx.new) predicate.now fields.now result }
    ensures refused { OnErr result (I.meaning cx.new ≡ I.meaning cx.old) }
{
    let Binder { value, bound_vars } = cx.predicate_kind(predicate);
    let value = predicate_over(&value, fields);
    cx.mk_predicate(Binder { value, bound_vars })
}

impl<X: Copy, D: Copy> Clone for Field<X, D> {
    ghost is_clone = { λ source copy. copy ≡ source };

    ghost is_infallible = { λ _. Unit {0} };

    fn clone(&self) -> Result<Self, AllocError> {
        Ok(*self)
    }
}

impl<X: Copy, D: Copy> Copy for Field<X, D> {}

impl<X: Copy, D: Copy> Clone for Fields<X, D> {
    ghost is_clone = { λ source copy. copy ≡ source };

    ghost is_infallible = { λ _. Unit {0} };

    fn clone(&self) -> Result<Self, AllocError> {
        Ok(*self)
    }
}

impl<X: Copy, D: Copy> Copy for Fields<X, D> {}
