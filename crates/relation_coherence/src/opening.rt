//! Two headers, opened in a context.
ghost use Rattle.std.specs.Prelude.{IfOk};
ghost use Rattle.relation_semantics.specs.ContextCalls.{Grows};
ghost use Rattle.relation_semantics.specs.Steps.{IsLater};
ghost use Rattle.relation_coherence.specs.Headers.{KnowsHeader, TakesHeader, HasHeader, OpensHeaders};

use crate::answer::HeaderOf;
use relation_laws::laws;
use relation_semantics::infer_ctxt::InferCtxtLike;
use relation_terms::terms::{GenericArgs, OutOfMemory};

/// The bodies of two headers, with new variables for what each binds.
///
/// # Errors
/// `OutOfMemory` where a growth was refused. Some variables may have been made then, of which nothing is recorded.
pub fn open_both<C: InferCtxtLike>(
    ctx: &mut C,
    left: HeaderOf<C::Interner>,
    right: HeaderOf<C::Interner>,
) -> Result<(GenericArgs<C::Interner>, GenericArgs<C::Interner>), OutOfMemory>
    requires lawful { (C.state ctx.old).lawful }
    requires left_known { KnowsHeader (C.state ctx.old) left }
    requires right_known { KnowsHeader (C.state ctx.old) right }
    requires left_taken { TakesHeader (C.state ctx.old) left }
    requires right_taken { TakesHeader (C.state ctx.old) right }
    requires left_in { HasHeader (C.state ctx.old) left }
    requires right_in { HasHeader (C.state ctx.old) right }
    ensures grows { Grows (C.state ctx.old) (C.state ctx.new) }
    ensures later { IsLater (C.state ctx.old).store (C.state ctx.new).store }
    ensures opens { IfOk result (λ p. OpensHeaders (C.state ctx.old) (C.state ctx.new) left right p.0 p.1) }
{
    laws::opening();
    let lhs = ctx.instantiate_binder_with_infer(left)?;
    let rhs = ctx.instantiate_binder_with_infer(right)?;
    Ok((lhs, rhs))
}
