//! A relation of terms without variables: it takes types and constants apart, and records what regions are asked for.
//!
//! It has no inference context, and so shows that what is asked of a relation can be met without one.
#![tactic(auto)]

ghost use Rattle.std.specs.Prelude.{◌≡◌, ◌≢◌, [], IfOk};
ghost use Rattle.term_enums.specs.declared.Variance.TheVariants.{Bivariant};
ghost use Rattle.relation_semantics.specs.Stores.{IsSound};
ghost use Rattle.relation_semantics.specs.Constraints.{constraint_at};
ghost use Rattle.plain_relation.specs.Plain.{plain_store, plain_state, plain_manner, AskedPlainly, RelatedUnder};

use relation_folds::error::RelateResult;
use relation_folds::fold::TypeFoldable;
use relation_folds::visit::TypeVisitable;
use relation_recursion::structural::tys;
use relation_semantics::infer_ctxt::BinderOf;
use relation_semantics::relate::Step;
use relation_steps::type_relation::{HasState, TypeRelation};
use relation_terms::predicate::{OutlivesPredicate, RegionConstraint, RegionEqPredicate};
use relation_terms::terms::{
    Const, GenericArgKind, GenericArgs, Interner, ItemOf, Region, RegionKey, Ty, Variance,
};

/// Terms are related at `ambient`, and what that asks of their regions is in `constraints`.
#[derive(Drop)]
pub struct PlainRelation<I: Interner> {
    pub interner: I,
    pub ambient: Variance,
    pub constraints: Vec<RegionConstraint<I::Key>>,
}

impl<I: Interner> PlainRelation<I> {
    /// A relation that has recorded nothing.
    pub fn new(interner: I, ambient: Variance) -> PlainRelation<I>
        ensures interner { result.interner ≡ interner }
        ensures ambient { result.ambient ≡ ambient }
        ensures constraints { result.constraints.items ≡ [] }
        ensures lawful { IsSound (plain_store (I.meaning interner) []) }
    {
        let alloc = interner.alloc();
        PlainRelation {
            interner,
            ambient,
            constraints: Vec::new(alloc),
        }
    }
}

/// The constraints on regions under which two types are related at a variance.
pub fn constraints_of<I: Interner + Drop>(
    interner: I,
    ambient: Variance,
    a: &Ty<I>,
    b: &Ty<I>,
) -> RelateResult<I, PlainRelation<I>>
    requires decides { ambient ≢ Bivariant }
    requires asked { AskedPlainly I.meaning interner ambient a.now b.now }
    ensures { IfOk result (λ r.
        RelatedUnder I.meaning interner ambient a.now b.now r.interner r.constraints.items) }
{
    let mut r = PlainRelation::new(interner, ambient);
    tys(&mut r, a, b)?;
    Ok(r)
}

// What relating two regions at a variance asks of them.
fn constraint<X: Copy>(
    v: Variance,
    a: &RegionKey<X>,
    b: &RegionKey<X>,
) -> Option<RegionConstraint<X>>
    ensures { result ≡ constraint_at v a.now b.now }
{
    match v {
        Variance::Covariant => Some(RegionConstraint::Outlives(OutlivesPredicate(
            GenericArgKind::Lifetime(*a),
            *b,
        ))),
        Variance::Contravariant => Some(RegionConstraint::Outlives(OutlivesPredicate(
            GenericArgKind::Lifetime(*b),
            *a,
        ))),
        Variance::Invariant => Some(RegionConstraint::Eq(RegionEqPredicate(*a, *b))),
        Variance::Bivariant => None,
    }
}

impl<I: Interner> HasState<I> for PlainRelation<I> {
    ghost state = { λ r. plain_state (I.meaning r.interner) r.ambient r.constraints.items };
}

impl<I: Interner> TypeRelation<I> for PlainRelation<I> {
    ghost use Rattle.std.specs.Prelude.{refl};
    ghost use Rattle.relation_semantics.proofs.Remembering.{none_related};

    ghost interner = { λ r. r.interner };

    ghost with_interner = { λ r cx. record r { interner = cx } };

    ghost manner = { plain_manner };

    fn cx(&self) -> &I {
        &self.interner
    }

    fn cx_mut(&mut self) -> &mut I {
        &mut self.interner
    }

    fn lemma_interner_grows(&self) {}

    fn ambient(&self) -> Variance {
        self.ambient
    }

    fn set_ambient(&mut self, v: Variance) {
        self.ambient = v;
    }

    fn item_variances(&self, def_id: &ItemOf<I>) -> Option<&[Variance]> {
        Some(self.interner.variances_of(def_id))
    }

    fn tys(&mut self, a: &Ty<I>, b: &Ty<I>) -> RelateResult<I, Step<Ty<I>>> {
        Ok(Step::Parts { a: *a, b: *b })
    }

    fn consts(&mut self, a: &Const<I>, b: &Const<I>) -> RelateResult<I, Step<Const<I>>> {
        // Reading shows that both are of forms that are related by their parts.
        let _a = self.interner.const_kind(a);
        let _b = self.interner.const_kind(b);
        Ok(Step::Parts { a: *a, b: *b })
    }

    fn regions(&mut self, a: &Region<I>, b: &Region<I>) -> RelateResult<I, Region<I>> {
        let Some(constraint) = constraint(self.ambient, a, b) else {
            return Ok(*a);
        };
        self.constraints.push(constraint)?;
        Ok(*a)
    }

    // It takes no term in which a binder binds anything: bodies are related as they are.
    fn open_binders<T: TypeFoldable<I> + TypeVisitable<I> + Copy>(
        &mut self,
        a: &BinderOf<I, T>,
        b: &BinderOf<I, T>,
        round: usize,
    ) -> RelateResult<I, Option<(T, T)>> {
        if round == 0 {
            return Ok(Some((a.value, b.value)));
        }
        Ok(None)
    }

    fn note_tys(&mut self, _a: &Ty<I>, _b: &Ty<I>) -> RelateResult<I, ()> {
        Ok(())
    }

    fn note_ty_args(
        &mut self,
        _a_ty: &Ty<I>,
        _b_ty: &Ty<I>,
        _def_id: &ItemOf<I>,
        _a_args: &GenericArgs<I>,
        _b_args: &GenericArgs<I>,
    ) -> RelateResult<I, ()> {
        Ok(())
    }

    ghost reads = { λ r. refl };

    ghost sound = { λ r l. l };

    ghost remembers_related = { λ r l. none_related _ _ _ _ _ _ };

    ghost takes_parts = { λ k c h i v l t. t };
}
