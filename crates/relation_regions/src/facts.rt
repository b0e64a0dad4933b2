//! Which facts may be stated of a context's regions.
ghost use Rattle.std.specs.Prelude.{◌≡◌, IsTrue, IsFalse};
ghost use Rattle.relation_terms.specs.Trees.{known};
ghost use Rattle.relation_regions.specs.Solving.{IsFactIn, cannot_be_given};

use crate::solving::RegionOutlivesPredicate;
use relation_semantics::infer_ctxt::InferCtxtLike;
use relation_terms::terms::{Interner, Keys, Region, RegionKind};

// Whether a region is a variable, bound by a binder outside, or a placeholder of a later universe than the context's.
fn cannot_be_given<C: InferCtxtLike>(ctx: &C, region: &Region<C::Interner>) -> bool
    requires { IsTrue (known (((C.state ctx.now).meaning).region region.now)) }
    ensures { let c = C.state ctx.now in result ≡ cannot_be_given c.store ((c.meaning).region region.now) }
{
    match ctx.cx().region_kind(region) {
        RegionKind::ReStatic => false,
        RegionKind::ReEarlyParam(_) => false,
        RegionKind::ReBound(..) => true,
        RegionKind::ReVar(_) => true,
        RegionKind::RePlaceholder(placeholder) => {
            let universe = ctx.universe();
            universe.0 < placeholder.universe.0
        }
    }
}

/// Whether it may be stated of a context that one region, which its interner knows, outlives another one, as it is
/// known to `solve`: both are regions of the context that are no variables.
pub fn is_fact<C: InferCtxtLike>(
    ctx: &C,
    fact: &RegionOutlivesPredicate<<C::Interner as Keys>::Key>,
) -> bool
    requires longer_known { IsTrue (known (((C.state ctx.now).meaning).region fact.now.0)) }
    requires shorter_known { IsTrue (known (((C.state ctx.now).meaning).region fact.now.1)) }
    ensures is { IsTrue result → IsFactIn (C.state ctx.now) fact.now }
    ensures is_not { IsFalse result → IsFactIn (C.state ctx.now) fact.now → ⊥ }
{
    if cannot_be_given(ctx, &fact.0) {
        return false;
    }
    !cannot_be_given(ctx, &fact.1)
}
