//! What can be tested, and the test.
ghost use Rattle.std.specs.Prelude.{◌≢◌, IsTrue, IfErr, OnOk, []};
ghost use Rattle.relation_terms.specs.Trees.{known};
ghost use Rattle.may_relate.specs.Around.{sorts_around};
ghost use Rattle.may_relate.specs.Fitting.{FitsAll, MayBeRelated, TellsUnfit};
ghost use Rattle.may_relate.specs.Seen.{AllSeen};
ghost use Rattle.may_relate.specs.declared.unfit.Unfit.TheVariants.{Memory};

mod binder;
mod forms;
mod predicates;

use crate::around::{Around, AroundOf};
use crate::seen::{SeenOf, none_seen};
use crate::walk::{list_fits, part_fits};
use crate::{HasVariables, Unfit};
use relation_folds::tree::HasTree;
use relation_terms::terms::parts::of_arg;
use relation_terms::terms::{
    Const, GenericArg, GenericArgs, Interner, Keys, Part, Parts, Pat, Region, TermKind, Ty,
};

/// What can be tested of a context: keys of terms and of lists of them, forms over them, and binders over these.
pub trait Relatable<C: HasVariables>: HasTree<C::Interner> {
    /// Nothing, where each leaf of it may stand under these binders; else the first reason why not, or `Memory` where a
    /// growth was refused. The interner, which is the context's, knows it.
    fn fits(
        &self,
        ctx: &C,
        cx: &C::Interner,
        around: &AroundOf<C::Interner>,
        seen: &mut SeenOf<C::Interner>,
    ) -> Result<(), Unfit>
        requires known { IsTrue (known (Self.tree (C.Interner.meaning cx.now) self.now)) }
        requires seen { AllSeen (C.state ctx.now).store around.now (C.Interner.meaning cx.now) seen.old }
        ensures fits { OnOk result (FitsAll (C.state ctx.now).store (sorts_around around.now)
            (Self.tree (C.Interner.meaning cx.now) self.now)) }
        ensures why { IfErr result (TellsUnfit (C.state ctx.now).store (sorts_around around.now)
            (Self.tree (C.Interner.meaning cx.now) self.now)) }
        ensures seen { AllSeen (C.state ctx.now).store around.now (C.Interner.meaning cx.now) seen.new };
}

/// Nothing, where a known term may be related in a context as it stands: its variables are the context's, its
/// placeholders of no later universe than the current one, no stand-in is in it, nothing escapes from it, and each
/// binder in it binds what stands in its body as what its list says it is. That is all that relating asks of a known
/// term.
///
/// A type is tested once under the same binders, and once at all where nothing escapes from it, but that the first 32 of
/// either are not remembered.
///
/// # Errors
/// The first reason why not, which is so of something that stands in the term: then the term may not be related. Or
/// `Memory` where a growth was refused, which says nothing of the term.
pub fn may_relate<C: HasVariables, T: Relatable<C>>(ctx: &C, term: &T) -> Result<(), Unfit>
    requires { IsTrue (known (T.tree (C.state ctx.now).meaning term.now)) }
    ensures may { OnOk result (MayBeRelated (C.state ctx.now).store (T.tree (C.state ctx.now).meaning term.now)) }
    ensures may_not { let t = T.tree (C.state ctx.now).meaning term.now in
        IfErr result (λ e. e ≢ Memory → MayBeRelated (C.state ctx.now).store t → ⊥) }
    ensures why { IfErr result
        (TellsUnfit (C.state ctx.now).store [] (T.tree (C.state ctx.now).meaning term.now)) }
{
    let cx = ctx.cx();
    let mut seen = none_seen(cx);
    term.fits(ctx, cx, &Around::Nothing, &mut seen)
}

impl<C: HasVariables> Relatable<C> for Ty<C::Interner> {
    fn fits(
        &self,
        ctx: &C,
        cx: &C::Interner,
        around: &AroundOf<C::Interner>,
        seen: &mut SeenOf<C::Interner>,
    ) -> Result<(), Unfit> {
        part_fits(ctx, cx, &Part::Ty(*self), around, seen)
    }
}

impl<C: HasVariables> Relatable<C> for Region<C::Interner> {
    fn fits(
        &self,
        ctx: &C,
        cx: &C::Interner,
        around: &AroundOf<C::Interner>,
        seen: &mut SeenOf<C::Interner>,
    ) -> Result<(), Unfit> {
        part_fits(ctx, cx, &Part::Region(*self), around, seen)
    }
}

impl<C: HasVariables> Relatable<C> for Const<C::Interner> {
    fn fits(
        &self,
        ctx: &C,
        cx: &C::Interner,
        around: &AroundOf<C::Interner>,
        seen: &mut SeenOf<C::Interner>,
    ) -> Result<(), Unfit> {
        part_fits(ctx, cx, &Part::Const(*self), around, seen)
    }
}

impl<C: HasVariables> Relatable<C> for Pat<C::Interner> {
    fn fits(
        &self,
        ctx: &C,
        cx: &C::Interner,
        around: &AroundOf<C::Interner>,
        seen: &mut SeenOf<C::Interner>,
    ) -> Result<(), Unfit> {
        part_fits(ctx, cx, &Part::Pat(*self), around, seen)
    }
}

impl<C: HasVariables> Relatable<C> for GenericArg<C::Interner> {
    fn fits(
        &self,
        ctx: &C,
        cx: &C::Interner,
        around: &AroundOf<C::Interner>,
        seen: &mut SeenOf<C::Interner>,
    ) -> Result<(), Unfit> {
        part_fits(ctx, cx, &of_arg(self), around, seen)
    }
}

impl<C: HasVariables> Relatable<C> for TermKind<<C::Interner as Keys>::Key> {
    fn fits(
        &self,
        ctx: &C,
        cx: &C::Interner,
        around: &AroundOf<C::Interner>,
        seen: &mut SeenOf<C::Interner>,
    ) -> Result<(), Unfit> {
        match self {
            TermKind::Ty(ty) => part_fits(ctx, cx, &Part::Ty(*ty), around, seen),
            TermKind::Const(constant) => part_fits(ctx, cx, &Part::Const(*constant), around, seen),
        }
    }
}

impl<C: HasVariables> Relatable<C> for GenericArgs<C::Interner> {
    fn fits(
        &self,
        ctx: &C,
        cx: &C::Interner,
        around: &AroundOf<C::Interner>,
        seen: &mut SeenOf<C::Interner>,
    ) -> Result<(), Unfit> {
        list_fits(ctx, cx, &Parts::Args(*self), around, seen)
    }
}
