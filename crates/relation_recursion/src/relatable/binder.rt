//! Relating binders over whatever can be related.
ghost use Rattle.std.proofs.Common.{refl};
ghost use Rattle.relation_terms.proofs.Stays.{extends_on};
ghost use Rattle.relation_recursion.specs.Bodies.{BodiesFit};
ghost use Rattle.relation_recursion.specs.EqualForms.{binder_same};

use crate::relatable::Relate;
use relation_folds::error::RelateResult;
use relation_folds::visit::TypeVisitable;
use relation_steps::type_relation::TypeRelation;
use relation_terms::terms::{Binder, Interner};

/// Of bodies that are related by their tree, and not by a form over it as lists are, and of which nothing is asked
/// besides: as types, signatures, predicates of trait objects, and binders over these.
impl<I: Interner, T: Relate<I> + TypeVisitable<I>> Relate<I> for Binder<I::Key, T> {
    ghost fits = { λ m a b. BodiesFit T.over T.fits T.tree m };

    /// Two that are equal are not opened. Others are related by their bodies, as the relation opens them: at
    /// `Invariant`, where a body uses what its binder binds, in two rounds, one for each side's variables. The answer
    /// is the left one.
    fn relate<R: TypeRelation<I>>(r: &mut R, a: &Self, b: &Self) -> RelateResult<I, Self> {
        if a == b {
            return Ok(*a);
        }
        let Some(bodies) = r.open_binders(a, b, 0)? else {
            return Ok(*a);
        };
        T::relate(r, &bodies.0, &bodies.1)?;
        let Some(bodies) = r.open_binders(a, b, 1)? else {
            return Ok(*a);
        };
        T::relate(r, &bodies.0, &bodies.1)?;
        Ok(*a)
    }

    ghost over_list = { tt };

    ghost fits_on = { λ m n e x y h k f. (f.0, λ o i v w j l. f.1 o (extends_on e i) v w j l) };

    ghost same = { λ cx. binder_same (I.meaning cx) I.Key.eq (T.tree (I.meaning cx)) _ _ (λ x y. refl) (T.same cx)
        (I.same_bound_vars cx) };
}
