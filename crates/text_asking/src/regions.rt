//! Whether the regions of a question's context can be as it has recorded, where some are known to outlive others.
ghost use Rattle.std.specs.Prelude.{IfOk};
ghost use Rattle.relation_terms.specs.Meaning.{Extends};
ghost use Rattle.variable_tables.specs.Tables.{IsLawful};
ghost use Rattle.text_asking.specs.Asking.{AllReady, KnowsAnswer, KnowsRelated};

use crate::context::NotAsked;
use crate::outliving::assumptions_of;
use crate::question::{Answer, Outcome, Ready, Unasked, terms_of};
use relation_reference::context::RefCtxt;
use relation_regions::Solved;
use relation_terms::terms::Interner;
use text_reading::naming::Parts;
use text_users::{NotSolved, ask_solved};

// Asks that, where each region of the first list outlives the one at its place in the second.
pub(super) fn ask_regions<I: Interner>(
    ctx: &mut RefCtxt<I>,
    terms: &Ready<I>,
    longer: Parts,
    shorter: Parts,
) -> Outcome<I>
    requires lawful { IsLawful (I.meaning ctx.old.interner) ctx.old.inner }
    requires ready { AllReady (I.meaning ctx.old.interner) terms.now }
    ensures lawful { IsLawful (I.meaning ctx.new.interner) ctx.new.inner }
    ensures grown { Extends (I.meaning ctx.old.interner) (I.meaning ctx.new.interner) }
    ensures known { let m = I.meaning ctx.new.interner in
        IfOk result (KnowsAnswer m (KnowsRelated m)) }
{
    let alloc = ctx.interner.alloc();
    let longer = terms_of(alloc, terms, longer)?;
    let shorter = terms_of(alloc, terms, shorter)?;
    let Ok(stated) = assumptions_of::<I>(alloc, &longer, &shorter) else {
        return Err(Unasked::Memory);
    };
    match ask_solved(ctx, &stated) {
        Ok(solved) => Ok(Answer::Solved(solved)),
        Err(NotSolved::Memory) => Err(Unasked::Memory),
        Err(NotSolved::NoFact) => Err(Unasked::NotAsked(NotAsked::Facts)),
    }
}
