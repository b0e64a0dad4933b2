//! The depth test, with parameters on each side as its user takes them.
ghost use Rattle.std.specs.Prelude.{◌≡◌, ◌↔◌, ◌≤◌, ℕ, IsTrue, IsFalse};
ghost use Rattle.relation_terms.specs.Trees.{known};
ghost use Rattle.fast_reject.specs.Rejecting.{Bars, BarsArgs, AreApart};

use crate::forms::{STARTING_DEPTH, Sides};
use crate::walk::{args_may_unify, types_may_unify};
use relation_terms::terms::{GenericArgs, Interner, Ty};
use std::alloc::AllocError;
use std::marker::PhantomData;

/// A quick test of whether two types, or two lists of arguments, may unify. Where it answers false no instances of the
/// two are equal, even with all regions, variables of binders and types of values taken as alike; if parameters stand
/// for themselves on both sides, where those of one index have one name. A true says nothing.
///
/// A coherence checker or a solver drops a candidate by it before it relates anything. Parameters on the left stand for
/// any type if `INSTANTIATE_LHS_WITH_INFER`, those on the right if `INSTANTIATE_RHS_WITH_INFER`; else each for itself.
pub struct DeepRejectCtxt<
    I,
    const INSTANTIATE_LHS_WITH_INFER: bool,
    const INSTANTIATE_RHS_WITH_INFER: bool,
> {
    interner: PhantomData<I>,
}

impl<I, const LHS: bool, const RHS: bool> Clone for DeepRejectCtxt<I, LHS, RHS> {
    ghost is_clone = { λ source copy. copy ≡ source };

    ghost is_infallible = { λ _. Unit {0} };

    fn clone(&self) -> Result<Self, AllocError> {
        Ok(*self)
    }
}

impl<I, const LHS: bool, const RHS: bool> Copy for DeepRejectCtxt<I, LHS, RHS> {}

impl<I: Interner> DeepRejectCtxt<I, false, false> {
    /// Parameters on both sides stand for themselves.
    pub fn relate_rigid_rigid(_cx: &I) -> DeepRejectCtxt<I, false, false> {
        DeepRejectCtxt {
            interner: PhantomData,
        }
    }
}

impl<I: Interner> DeepRejectCtxt<I, true, true> {
    /// Parameters on both sides stand for any type.
    pub fn relate_infer_infer(_cx: &I) -> DeepRejectCtxt<I, true, true> {
        DeepRejectCtxt {
            interner: PhantomData,
        }
    }
}

impl<I: Interner> DeepRejectCtxt<I, false, true> {
    /// Parameters on the left stand for themselves, those on the right for any type.
    pub fn relate_rigid_infer(_cx: &I) -> DeepRejectCtxt<I, false, true> {
        DeepRejectCtxt {
            interner: PhantomData,
        }
    }
}

impl<
    I: Interner,
    const INSTANTIATE_LHS_WITH_INFER: bool,
    const INSTANTIATE_RHS_WITH_INFER: bool,
> DeepRejectCtxt<I, INSTANTIATE_LHS_WITH_INFER, INSTANTIATE_RHS_WITH_INFER> {
    /// Whether two lists of arguments may unify, pair by pair, as far as the shorter one goes. The interner has to know
    /// both.
    pub fn args_may_unify(
        &self,
        cx: &I,
        obligation_args: &GenericArgs<I>,
        impl_args: &GenericArgs<I>,
    ) -> bool
        requires left_known { IsTrue (known ((I.meaning cx.now).args obligation_args.now)) }
        requires right_known { IsTrue (known ((I.meaning cx.now).args impl_args.now)) }
        ensures exact { IsFalse result ↔ BarsArgs self.now 8 I.meaning cx.now obligation_args.now impl_args.now }
        ensures apart { IsFalse result → AreApart self.now (I.meaning cx.now).args obligation_args.now impl_args.now }
    {
        let sides = Sides {
            left: INSTANTIATE_LHS_WITH_INFER,
            right: INSTANTIATE_RHS_WITH_INFER,
        };
        let left = cx.args(obligation_args);
        let right = cx.args(impl_args);
        args_may_unify(cx, sides, left, right, STARTING_DEPTH)
    }

    /// Whether two types may unify, as far as a depth of 8 goes. The interner has to know both.
    pub fn types_may_unify(&self, cx: &I, lhs: &Ty<I>, rhs: &Ty<I>) -> bool
        requires lhs_known { IsTrue (known ((I.meaning cx.now).ty lhs.now)) }
        requires rhs_known { IsTrue (known ((I.meaning cx.now).ty rhs.now)) }
        ensures exact { IsFalse result ↔ Bars self.now 8 I.meaning cx.now lhs.now rhs.now }
        ensures apart { IsFalse result → AreApart self.now (I.meaning cx.now).ty lhs.now rhs.now }
    {
        self.types_may_unify_with_depth(cx, lhs, rhs, STARTING_DEPTH)
    }

    /// Whether two types may unify, as far as a depth goes: each type takes one from it, and behind an unsafe binder it
    /// begins again at 8. The interner has to know both types.
    pub fn types_may_unify_with_depth(
        &self,
        cx: &I,
        lhs: &Ty<I>,
        rhs: &Ty<I>,
        depth_limit: usize,
    ) -> bool
        requires lhs_known { IsTrue (known ((I.meaning cx.now).ty lhs.now)) }
        requires rhs_known { IsTrue (known ((I.meaning cx.now).ty rhs.now)) }
        ensures exact { IsFalse result ↔ Bars self.now depth_limit I.meaning cx.now lhs.now rhs.now }
        ensures apart { IsFalse result → AreApart self.now (I.meaning cx.now).ty lhs.now rhs.now }
        ensures deeper { IsFalse result → (e : ℕ) → depth_limit ≤ e → Bars self.now e I.meaning cx.now lhs.now rhs.now }
    {
        let sides = Sides {
            left: INSTANTIATE_LHS_WITH_INFER,
            right: INSTANTIATE_RHS_WITH_INFER,
        };
        types_may_unify(cx, sides, *lhs, *rhs, depth_limit)
    }
}
