//! What predicates of traits, aliases and trait objects are made of, over a plain type: each call whose conditions no
//! other call here meets.
ghost use Rattle.std.specs.Prelude.{◌≡◌, [], IsTrue, IsSome, IfOk, Some};
ghost use Rattle.relation_terms.specs.Trees.{known};
ghost use Rattle.relation_terms.specs.Meaning.{Extends, object_predicate_tree};
ghost use Rattle.relation_terms.specs.Objects.{ProjectsAlias};
ghost use Rattle.relation_terms.specs.Edits.{HasSelf};
ghost use Rattle.relation_terms.specs.Predicates.{item_parent, item_alias};

use relation_terms::predicate::{
    AliasTerm, AliasTermKind, ExistentialPredicate, ExistentialProjection, ExistentialTraitRef,
    HostEffectPredicate, NormalizesTo, ObjectPredicate, ProjectionPredicate, TraitPredicate,
    TraitRef, as_trait_clause, clause_of_projection, clause_of_trait_predicate,
    clause_of_trait_ref, extend_with_error,
};
use relation_terms::terms::{
    Binder, BoundConstness, BoundVars, DefId, FreeConstAliasId, GenericArgKind, GenericArgs,
    Interner, OutOfMemory, PredicatePolarity, TermKind, TraitAssocTermId, TraitAssocTyId, TraitId,
    TyKind, UnevaluatedConst, UnevaluatedConstId,
};

/// The list of one plain type.
#[tactic(auto, using(crate::proofs::Carried::one_type))]
pub fn make_args<I: Interner>(cx: &mut I) -> Result<GenericArgs<I>, OutOfMemory>
    ensures grown { Extends (I.meaning cx.old) (I.meaning cx.new) }
    ensures sure { IfOk result (λ k. IsTrue (known ((I.meaning cx.new).args k))) }
    ensures has_self { IfOk result (λ k. HasSelf ((I.meaning cx.new).args k)) }
{
    let ty = cx.mk_ty(TyKind::Bool)?;
    let mut args = Vec::new(cx.alloc());
    args.push(GenericArgKind::Ty(ty))?;
    cx.mk_args(&args)
}

/// The list of a binder that binds nothing.
pub fn make_no_vars<I: Interner>(cx: &mut I) -> Result<BoundVars<I>, OutOfMemory>
    ensures grown { Extends (I.meaning cx.old) (I.meaning cx.new) }
    ensures is { IfOk result (λ k. (I.meaning cx.new).bound_vars k ≡ Some []) }
{
    let variables = Vec::new(cx.alloc());
    cx.mk_bound_vars(&variables)
}

// Whether what is said of an alias, under a binder too, is of one trait and of one type that implements it.
fn is_of_one<I: Interner>(cx: &I, id: I::Id, args: GenericArgs<I>, bound_vars: BoundVars<I>) -> bool
    requires sure { IsTrue (known ((I.meaning cx.now).args args)) }
    requires has_self { HasSelf ((I.meaning cx.now).args args) }
    requires declared { IsSome (item_parent (I.meaning cx.now) id) }
{
    let def_id = TraitAssocTyId(id);
    let kind = AliasTermKind::ProjectionTy { def_id };
    let alias = AliasTerm { kind, args };
    let ty = alias.self_ty(cx);
    let of = alias.trait_def_id(cx);
    let projection_term = alias;
    let term = TermKind::Ty(ty);
    let value = ProjectionPredicate {
        projection_term,
        term,
    };
    let bound = Binder { value, bound_vars };
    let normalizes = NormalizesTo { alias, term };
    let mut fine = value.self_ty(cx) == ty;
    fine &= normalizes.self_ty(cx) == ty;
    fine &= value.trait_def_id(cx) == of;
    fine &= bound.trait_def_id(cx) == of;
    fine &= normalizes.trait_def_id(cx) == of;
    fine & (value.def_id() == TraitAssocTermId(id))
}

// Whether what is said of a trait, under a binder too, is of one type that implements it.
fn is_of_one_type<I: Interner>(
    cx: &I,
    trait_ref: TraitRef<I::Key, I::Id>,
    bound_vars: BoundVars<I>,
) -> bool
    requires sure { IsTrue (known ((I.meaning cx.now).args trait_ref.args)) }
    requires has_self { HasSelf ((I.meaning cx.now).args trait_ref.args) }
{
    let ty = trait_ref.self_ty(cx);
    let value = trait_ref;
    let mut fine = Binder { value, bound_vars }.self_ty(cx).value == ty;
    let value = TraitPredicate::from_trait_ref(trait_ref);
    fine &= value.self_ty(cx) == ty;
    fine &= Binder { value, bound_vars }.self_ty(cx).value == ty;
    let constness = BoundConstness::Maybe;
    let value = HostEffectPredicate {
        trait_ref,
        constness,
    };
    fine &= value.self_ty(cx) == ty;
    fine & (Binder { value, bound_vars }.self_ty(cx).value == ty)
}

// Whether an alias is that of its item, as a type and as a constant.
fn is_of_its_item<I: Interner>(cx: &I, id: I::Id, args: GenericArgs<I>) -> bool
    requires is_alias { IsSome (item_alias (I.meaning cx.now) id) }
{
    let def_id = TraitAssocTyId(id);
    let kind = AliasTermKind::ProjectionTy { def_id };
    let alias = AliasTerm { kind, args };
    let def_id = FreeConstAliasId(id);
    let kind = AliasTermKind::FreeConst { def_id };
    let constant = AliasTerm { kind, args };
    let def = UnevaluatedConstId(id);
    let unevaluated = UnevaluatedConst { def, args };
    let mut fine = AliasTerm::new_from_def_id(cx, &DefId(id), args) == alias;
    fine &= AliasTerm::from_unevaluated_const(cx, &unevaluated) == alias;
    fine &= AliasTerm::from(alias.expect_ty()) == alias;
    fine & (constant.expect_ct() == unevaluated)
}

// Whether what is said of an alias is as it was where its own self type takes its place.
#[tactic(auto, using(relation_terms::proofs::Stays::knows_ty, relation_terms::proofs::Stays::knows_args, crate::proofs::Carried::self_on))]
fn aliases_stay<I: Interner>(cx: &mut I, id: I::Id, args: GenericArgs<I>) -> bool
    requires sure { IsTrue (known ((I.meaning cx.old).args args)) }
    requires has_self { HasSelf ((I.meaning cx.old).args args) }
    ensures grown { Extends (I.meaning cx.old) (I.meaning cx.new) }
{
    let def_id = TraitAssocTyId(id);
    let kind = AliasTermKind::ProjectionTy { def_id };
    let alias = AliasTerm { kind, args };
    let projection_term = alias;
    let ty = alias.self_ty(cx);
    let term = TermKind::Ty(ty);
    let projection = ProjectionPredicate {
        projection_term,
        term,
    };
    let normalizes = NormalizesTo { alias, term };
    let mut fine = alias.with_replaced_self_ty(cx, ty) == Ok(alias);
    fine &= projection.with_replaced_self_ty(cx, ty) == Ok(projection);
    fine & (normalizes.with_replaced_self_ty(cx, ty) == Ok(normalizes))
}

// The same of what is said of a trait.
#[tactic(auto, using(relation_terms::proofs::Stays::knows_ty, relation_terms::proofs::Stays::knows_args, crate::proofs::Carried::self_on))]
fn traits_stay<I: Interner>(cx: &mut I, trait_ref: TraitRef<I::Key, I::Id>) -> bool
    requires sure { IsTrue (known ((I.meaning cx.old).args trait_ref.args)) }
    requires has_self { HasSelf ((I.meaning cx.old).args trait_ref.args) }
    ensures grown { Extends (I.meaning cx.old) (I.meaning cx.new) }
{
    let ty = trait_ref.self_ty(cx);
    let implemented = TraitPredicate::from_trait_ref(trait_ref);
    let constness = BoundConstness::Maybe;
    let effect = HostEffectPredicate {
        trait_ref,
        constness,
    };
    let mut fine = trait_ref.with_replaced_self_ty(cx, ty) == Ok(trait_ref);
    fine &= implemented.with_replaced_self_ty(cx, ty) == Ok(implemented);
    fine & (effect.with_replaced_self_ty(cx, ty) == Ok(effect))
}

// Whether the clause that a trait is implemented is that of the predicate, and not that of const contexts; and an alias
// makes a clause, of no trait.
#[tactic(auto, using(relation_terms::proofs::Stays::knows_ty, relation_terms::proofs::Stays::knows_args, crate::proofs::Carried::known_under, crate::proofs::Carried::none_on))]
fn clauses_are_made<I: Interner>(
    cx: &mut I,
    value: TraitRef<I::Key, I::Id>,
    bound_vars: BoundVars<I>,
) -> bool
    requires sure { IsTrue (known ((I.meaning cx.old).args value.args)) }
    requires none { (I.meaning cx.old).bound_vars bound_vars ≡ Some [] }
    ensures grown { Extends (I.meaning cx.old) (I.meaning cx.new) }
{
    let bound = Binder { value, bound_vars };
    let clause = clause_of_trait_ref(cx, bound);
    let value = TraitPredicate::from_trait_ref(value);
    let again = clause_of_trait_predicate(cx, Binder { value, bound_vars });
    let effect = bound.to_host_effect_clause(cx, BoundConstness::Const);
    (clause == again) & (clause != effect)
}

#[tactic(auto, using(relation_terms::proofs::Stays::knows_ty, relation_terms::proofs::Stays::knows_args, crate::proofs::Carried::known_under, crate::proofs::Carried::none_on))]
fn projection_is_made<I: Interner>(
    cx: &mut I,
    id: I::Id,
    args: GenericArgs<I>,
    bound_vars: BoundVars<I>,
) -> bool
    requires sure { IsTrue (known ((I.meaning cx.old).args args)) }
    requires has_self { HasSelf ((I.meaning cx.old).args args) }
    requires none { (I.meaning cx.old).bound_vars bound_vars ≡ Some [] }
    ensures grown { Extends (I.meaning cx.old) (I.meaning cx.new) }
{
    let def_id = TraitAssocTyId(id);
    let kind = AliasTermKind::ProjectionTy { def_id };
    let projection_term = AliasTerm { kind, args };
    let term = TermKind::Ty(projection_term.self_ty(cx));
    let value = ProjectionPredicate {
        projection_term,
        term,
    };
    let erased = ExistentialProjection::erase_self_ty(cx, &value);
    let made = clause_of_projection(cx, Binder { value, bound_vars });
    erased.is_ok_and(|erased| erased.term == term) & made.is_ok()
}

// Whether an alias of a type makes a type, and one of a constant a constant.
#[tactic(auto, using(relation_terms::proofs::Stays::knows_args))]
fn terms_are_made<I: Interner>(cx: &mut I, id: I::Id, args: GenericArgs<I>) -> bool
    requires sure { IsTrue (known ((I.meaning cx.old).args args)) }
    ensures grown { Extends (I.meaning cx.old) (I.meaning cx.new) }
{
    let def_id = TraitAssocTyId(id);
    let kind = AliasTermKind::ProjectionTy { def_id };
    let ty = AliasTerm { kind, args }.to_term(cx);
    let def_id = FreeConstAliasId(id);
    let kind = AliasTermKind::FreeConst { def_id };
    let constant = AliasTerm { kind, args }.to_term(cx);
    matches!(
        (ty, constant),
        (Ok(TermKind::Ty(_)), Ok(TermKind::Const(_)))
    )
}

// Whether an alias over the arguments of its trait alone has none of its own.
fn has_none_of_its_own<I: Interner>(
    cx: &mut I,
    id: I::Id,
    args: GenericArgs<I>,
) -> Result<bool, OutOfMemory>
    requires sure { IsTrue (known ((I.meaning cx.old).args args)) }
    requires declared { IsSome (item_parent (I.meaning cx.old) id) }
    ensures grown { Extends (I.meaning cx.old) (I.meaning cx.new) }
{
    let def_id = TraitAssocTyId(id);
    let kind = AliasTermKind::ProjectionTy { def_id };
    let (of, own) = AliasTerm { kind, args }.trait_ref_and_own_args(cx)?;
    Ok((of.args == args) & cx.args(&own).is_empty())
}

// Whether a trait's own parameters are those of an item of it, and errors in their place are more than none.
#[tactic(auto, using(relation_terms::proofs::Stays::knows_args))]
fn lists_are_kept<I: Interner>(cx: &mut I, id: I::Id) -> Result<bool, OutOfMemory>
    ensures grown { Extends (I.meaning cx.old) (I.meaning cx.new) }
{
    let identity = TraitRef::identity(cx, TraitId(id))?;
    let of_item = TraitRef::from_assoc(cx, TraitId(id), &identity.args);
    let none = Vec::new(cx.alloc());
    let errors = extend_with_error(cx, &DefId(id), &none)?;
    let again = TraitRef::new(cx, TraitId(id), &none);
    let more = again.is_ok_and(|again| again.args != errors);
    Ok(more & (of_item == Ok(identity)))
}

// Whether an alias, and what a trait object says of one and of its trait, have the list that they are made of.
fn parts_are_made<I: Interner>(cx: &mut I, id: I::Id) -> Result<bool, OutOfMemory>
    ensures grown { Extends (I.meaning cx.old) (I.meaning cx.new) }
{
    let none = Vec::new(cx.alloc());
    let def_id = TraitAssocTyId(id);
    let kind = AliasTermKind::ProjectionTy { def_id };
    let args = AliasTerm::new(cx, kind, &none)?.args;
    let of = ExistentialTraitRef::new(cx, TraitId(id), &none);
    let ty = cx.mk_ty(TyKind::Bool)?;
    let term = TermKind::Ty(ty);
    let named = ExistentialProjection::new(cx, TraitAssocTermId(id), &none, term);
    let wanted = ExistentialProjection::new_from_args(TraitAssocTermId(id), args, term);
    let of_same = of == Ok(ExistentialTraitRef::new_from_args(TraitId(id), args));
    Ok(of_same & (named == Ok(wanted)))
}

// Whether what a trait object says of an item is of the item's trait, and holds of a type, under a binder too.
#[tactic(auto, using(relation_terms::proofs::Stays::knows_ty, relation_terms::proofs::Stays::knows_args))]
fn item_goes<I: Interner>(
    cx: &mut I,
    id: I::Id,
    args: GenericArgs<I>,
    bound_vars: BoundVars<I>,
) -> Result<bool, OutOfMemory>
    requires sure { IsTrue (known ((I.meaning cx.old).args args)) }
    requires is_alias { IsSome (item_alias (I.meaning cx.old) id) }
{
    let def_id = TraitAssocTermId(id);
    let ty = cx.mk_ty(TyKind::Bool)?;
    let term = TermKind::Ty(ty);
    let value = ExistentialProjection { def_id, args, term };
    let bound = Binder { value, bound_vars };
    let of_ty = bound.with_self_ty(cx, ty)?;
    Ok(of_ty.value.term == term)
}

// Whether its trait has none of its arguments.
#[tactic(auto, using(relation_terms::proofs::Stays::knows_ty, relation_terms::proofs::Stays::knows_args, crate::proofs::Carried::parent_on))]
fn item_has_a_trait<I: Interner>(
    cx: &mut I,
    id: I::Id,
    args: GenericArgs<I>,
) -> Result<bool, OutOfMemory>
    requires sure { IsTrue (known ((I.meaning cx.old).args args)) }
    requires declared { IsSome (item_parent (I.meaning cx.old) id) }
{
    let def_id = TraitAssocTermId(id);
    let ty = cx.mk_ty(TyKind::Bool)?;
    let term = TermKind::Ty(ty);
    let of = ExistentialProjection { def_id, args, term }.trait_ref(cx)?;
    Ok(of.args != args)
}

// Whether a trait of a trait object is implemented by a type, under a binder too, and is a clause of that.
#[tactic(auto, using(relation_terms::proofs::Stays::knows_ty, relation_terms::proofs::Stays::knows_args, crate::proofs::Carried::known_under, crate::proofs::Carried::none_on))]
fn trait_goes<I: Interner>(
    cx: &mut I,
    id: I::Id,
    args: GenericArgs<I>,
    bound_vars: BoundVars<I>,
) -> Result<bool, OutOfMemory>
    requires sure { IsTrue (known ((I.meaning cx.old).args args)) }
    requires none { (I.meaning cx.old).bound_vars bound_vars ≡ Some [] }
{
    let def_id = TraitId(id);
    let ty = cx.mk_ty(TyKind::Bool)?;
    let of = ExistentialTraitRef { def_id, args };
    let value = ExistentialPredicate::Trait(of);
    let predicate = Binder { value, bound_vars };
    let clause = predicate.with_self_ty(cx, ty)?;
    let implemented = as_trait_clause(cx, &clause);
    let value = of;
    let of_ty = Binder { value, bound_vars }.with_self_ty(cx, ty)?;
    let value = TraitPredicate::from_trait_ref(of_ty.value);
    Ok(implemented == Some(Binder { value, bound_vars }))
}

// Whether what is read of an item that a trait declares is of that.
#[tactic(auto, using(crate::proofs::Carried::is_some))]
fn all_is_read<I: Interner>(cx: &mut I, id: I::Id) -> Result<bool, OutOfMemory> {
    let bound_vars = make_no_vars(cx)?;
    let args = make_args(cx)?;
    let Some(_of) = cx.projection_parent(&TraitAssocTermId(id)) else {
        return Ok(false);
    };
    let Some(_kind) = cx.alias_term_kind_from_def_id(&DefId(id)) else {
        return Ok(false);
    };
    let def_id = TraitId(id);
    let mut fine = is_of_one(cx, id, args, bound_vars) & is_of_its_item(cx, id, args);
    fine &= is_of_one_type(cx, TraitRef { def_id, args }, bound_vars);
    Ok(has_none_of_its_own(cx, id, args)? & fine)
}

// Whether what is made of a trait and of its alias is as it is to be.
#[tactic(auto, using(relation_terms::proofs::Stays::knows_args, crate::proofs::Carried::self_on, crate::proofs::Carried::none_on))]
fn all_is_made<I: Interner>(cx: &mut I, id: I::Id) -> Result<bool, OutOfMemory> {
    let bound_vars = make_no_vars(cx)?;
    let args = make_args(cx)?;
    let def_id = TraitId(id);
    let mut fine = aliases_stay(cx, id, args);
    fine &= traits_stay(cx, TraitRef { def_id, args });
    fine &= clauses_are_made(cx, TraitRef { def_id, args }, bound_vars);
    fine &= projection_is_made(cx, id, args, bound_vars);
    Ok(terms_are_made(cx, id, args) & fine)
}

// Whether what trait objects say of a trait and of an item of it is as it is to be.
#[tactic(auto, using(relation_terms::proofs::Stays::knows_args, crate::proofs::Carried::none_on, crate::proofs::Carried::is_some))]
fn objects_go<I: Interner>(cx: &mut I, id: I::Id) -> Result<bool, OutOfMemory> {
    let bound_vars = make_no_vars(cx)?;
    let args = make_args(cx)?;
    let fine = trait_goes(cx, id, args, bound_vars)?;
    let args = make_args(cx)?;
    let Some(_of) = cx.projection_parent(&TraitAssocTermId(id)) else {
        return Ok(false);
    };
    let has_a_trait = item_has_a_trait(cx, id, args)?;
    let args = make_args(cx)?;
    let Some(_kind) = cx.alias_term_kind_from_def_id(&DefId(id)) else {
        return Ok(false);
    };
    Ok(item_goes(cx, id, args, bound_vars)? & has_a_trait & fine)
}

/// Whether all of these hold of an item that a trait declares, over a plain type.
pub fn all_go<I: Interner>(cx: &mut I, id: I::Id) -> bool {
    let mut fine = all_is_read(cx, id) == Ok(true);
    fine &= all_is_made(cx, id) == Ok(true);
    fine &= objects_go(cx, id) == Ok(true);
    fine &= lists_are_kept(cx, id) == Ok(true);
    fine & (parts_are_made(cx, id) == Ok(true))
}
