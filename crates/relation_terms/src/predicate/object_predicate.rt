//! What the predicates of trait objects say of a type.
ghost use Rattle.std.specs.Prelude.{◌≡◌, IsTrue, IfOk};
ghost use Rattle.relation_terms.specs.Trees.{known};
ghost use Rattle.relation_terms.specs.Meaning.{Extends, existential_tree, object_predicate_tree};
ghost use Rattle.relation_terms.specs.Predicates.{clause_kind_tree};
ghost use Rattle.relation_terms.specs.Objects.{existential_id, ProjectsAlias, auto_args, self_form};
ghost use Rattle.relation_terms.specs.Edited.{IsSelfClause};

use crate::predicate::item_args::extend_with_error;
use crate::predicate::{ClauseKind, ExistentialPredicate, TraitPredicate, TraitRef};
use crate::terms::{
    Binder, Clause, DefId, GenericArgKind, GenericArgs, Interner, OutOfMemory, PredicatePolarity,
    TraitId, Ty,
};

// The arguments of an auto trait: the type alone, or, where the trait has not this one parameter, errors behind it.
fn auto_args<I: Interner>(
    cx: &mut I,
    trait_id: &TraitId<I::Id>,
    self_ty: Ty<I>,
) -> Result<GenericArgs<I>, OutOfMemory>
    requires { IsTrue (known ((I.meaning cx.old).ty self_ty)) }
    ensures grown { Extends (I.meaning cx.old) (I.meaning cx.new) }
    ensures sure { IfOk result (λ k. IsTrue (known ((I.meaning cx.new).args k))) }
    ensures made { let m = I.meaning cx.old in
        IfOk result (λ k. (I.meaning cx.new).args k ≡ auto_args m (m.id (trait_id.now).0) (m.ty self_ty)) }
{
    let mut given = Vec::new(cx.alloc());
    given.push(GenericArgKind::Ty(self_ty))?;
    let item = DefId(trait_id.0);
    if cx.generics_count(&item) == 1 {
        cx.mk_args(&given)
    } else {
        extend_with_error(cx, &item, &given)
    }
}

// A trait is implemented.
fn positive<X, D, N>(trait_ref: TraitRef<X, D>) -> ClauseKind<X, D, N>
    ensures { result ≡ ClauseKind.Trait (record { trait_ref = trait_ref; polarity = PredicatePolarity.Positive }) }
{
    ClauseKind::Trait(TraitPredicate {
        trait_ref,
        polarity: PredicatePolarity::Positive,
    })
}

// The form of the clause.
fn self_form<I: Interner>(
    cx: &mut I,
    predicate: &ExistentialPredicate<I::Key, I::Id>,
    self_ty: Ty<I>,
) -> Result<ClauseKind<I::Key, I::Id, I::Name>, OutOfMemory>
    requires self_known { IsTrue (known ((I.meaning cx.old).ty self_ty)) }
    requires predicate_known { IsTrue (known (existential_tree (I.meaning cx.old) predicate.now)) }
    requires is_alias { ProjectsAlias (I.meaning cx.old) predicate.now }
    ensures grown { Extends (I.meaning cx.old) (I.meaning cx.new) }
    ensures sure { IfOk result (λ k. IsTrue (known (clause_kind_tree (I.meaning cx.new) k))) }
    ensures made { let m = I.meaning cx.old in
        IfOk result (λ k. clause_kind_tree (I.meaning cx.new) k ≡ self_form m predicate.now (m.ty self_ty)) }
{
    match predicate {
        ExistentialPredicate::Trait(trait_ref) => {
            let trait_ref = trait_ref.with_self_ty(cx, self_ty)?;
            Ok(positive(trait_ref))
        }
        ExistentialPredicate::Projection(projection) => {
            let predicate = projection.with_self_ty(cx, self_ty)?;
            Ok(ClauseKind::Projection(predicate))
        }
        ExistentialPredicate::AutoTrait(def_id) => {
            let args = auto_args(cx, def_id, self_ty)?;
            Ok(positive(TraitRef {
                def_id: *def_id,
                args,
            }))
        }
    }
}

impl<X: Copy, D: Copy> Binder<X, ExistentialPredicate<X, D>> {
    /// The id of the trait, or of the item that is projected.
    pub fn def_id(&self) -> DefId<D>
        ensures { result.0 ≡ existential_id (self.now).value }
    {
        match self.value {
            ExistentialPredicate::Trait(trait_ref) => DefId(trait_ref.def_id.0),
            ExistentialPredicate::Projection(projection) => DefId(projection.def_id.0),
            ExistentialPredicate::AutoTrait(def_id) => DefId(def_id.0),
        }
    }

    /// What the predicate says of a type, as a clause under the same binder: that the type implements the trait, or
    /// what the item comes to for it. An auto trait that has not one generic parameter gets errors for the others.
    ///
    /// The interner has to know the predicate and the type, and by its tables what is projected has to be an alias. No
    /// variable of the type may be bound outside of it, since the binder would capture it.
    ///
    /// Answers `OutOfMemory` where a growth was refused. What was known then keeps its meaning; arguments may have been
    /// made.
    pub fn with_self_ty<I: Interner<Key = X, Id = D>>(
        &self,
        cx: &mut I,
        self_ty: Ty<I>,
    ) -> Result<Clause<I>, OutOfMemory>
        requires self_known { IsTrue (known ((I.meaning cx.old).ty self_ty)) }
        requires predicate_known { IsTrue (known (object_predicate_tree (I.meaning cx.old) self.now)) }
        requires is_alias { ProjectsAlias (I.meaning cx.old) (self.now).value }
        ensures grown { Extends (I.meaning cx.old) (I.meaning cx.new) }
        ensures sure { IfOk result (λ k. IsTrue (known ((I.meaning cx.new).clause k))) }
        ensures means { IfOk result (λ k. IsSelfClause I.meaning cx.old cx.new self.now self_ty k) }
    {
        let value = self_form(cx, &self.value, self_ty)?;
        cx.mk_clause(Binder {
            value,
            bound_vars: self.bound_vars,
        })
    }
}
