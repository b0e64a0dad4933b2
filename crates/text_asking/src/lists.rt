//! Lists of arguments, and relating two of them.
ghost use Rattle.std.specs.Prelude.{◌≡◌, IsTrue, IfOk};
ghost use Rattle.relation_terms.specs.Trees.{known, count};
ghost use Rattle.relation_terms.specs.Meaning.{Extends};
ghost use Rattle.variable_tables.specs.Tables.{IsLawful};
ghost use Rattle.text_asking.specs.Asking.{AllReady, KnowsAnswer, KnowsRelated};

use crate::context::{NotAsked, may_ask, relate};
use crate::environment::environment_for;
use crate::fits::needs_of_both;
use crate::question::{Answer, Outcome, Ready, Unasked, terms_of};
use may_relate::may_relate;
use relation_reference::context::RefCtxt;
use relation_terms::terms::parts::member_count;
use relation_terms::terms::{GenericArgs, Interner, Parts as PartsOfTerm, Variance};
use text_reading::naming::Parts;
use text_reading::reading::Relation;

// The arguments of a list of terms.
pub(super) fn args_of<I: Interner>(
    ctx: &mut RefCtxt<I>,
    terms: &Ready<I>,
    list: Parts,
) -> Result<GenericArgs<I>, Unasked>
    requires lawful { IsLawful (I.meaning ctx.old.interner) ctx.old.inner }
    requires ready { AllReady (I.meaning ctx.old.interner) terms.now }
    ensures lawful { IsLawful (I.meaning ctx.new.interner) ctx.new.inner }
    ensures grown { Extends (I.meaning ctx.old.interner) (I.meaning ctx.new.interner) }
    ensures sure { IfOk result (λ args. IsTrue (known ((I.meaning ctx.new.interner).args args))) }
{
    let keys = terms_of(ctx.interner.alloc(), terms, list)?;
    let args = ctx.interner.mk_args(&keys)?;
    Ok(args)
}

// Whether two lists have as many arguments.
fn are_as_many<I: Interner>(cx: &I, lhs: &GenericArgs<I>, rhs: &GenericArgs<I>) -> bool
    requires left_known { IsTrue (known ((I.meaning cx.now).args lhs.now)) }
    requires right_known { IsTrue (known ((I.meaning cx.now).args rhs.now)) }
    ensures { IsTrue result → count ((I.meaning cx.now).args lhs.now) ≡ count ((I.meaning cx.now).args rhs.now) }
{
    let left = member_count(cx, &PartsOfTerm::Args(*lhs));
    let right = member_count(cx, &PartsOfTerm::Args(*rhs));
    left == right
}

// Relates two lists of arguments that are known, where that is assumed.
fn relate_args<I: Interner>(
    ctx: &mut RefCtxt<I>,
    terms: &Ready<I>,
    assumed: Parts,
    lhs: GenericArgs<I>,
    rhs: GenericArgs<I>,
) -> Outcome<I>
    requires lawful { IsLawful (I.meaning ctx.old.interner) ctx.old.inner }
    requires ready { AllReady (I.meaning ctx.old.interner) terms.now }
    requires lhs_known { IsTrue (known ((I.meaning ctx.old.interner).args lhs)) }
    requires rhs_known { IsTrue (known ((I.meaning ctx.old.interner).args rhs)) }
    ensures lawful { IsLawful (I.meaning ctx.new.interner) ctx.new.inner }
    ensures grown { Extends (I.meaning ctx.old.interner) (I.meaning ctx.new.interner) }
    ensures known { let m = I.meaning ctx.new.interner in
        IfOk result (KnowsAnswer m (KnowsRelated m)) }
{
    if !are_as_many(&ctx.interner, &lhs, &rhs) {
        return Err(Unasked::NotAsked(NotAsked::Lengths));
    }
    let relation = Relation::At(Variance::Invariant);
    let (lhs_needs, rhs_needs) = needs_of_both(&ctx.interner, &lhs, &rhs)?;
    let param_env = environment_for(ctx, terms, assumed, &lhs_needs, &rhs_needs)?;
    let lhs_fits = may_relate(&*ctx, &lhs);
    let rhs_fits = may_relate(&*ctx, &rhs);
    may_ask(lhs_fits, relation, rhs_fits)?;
    let span = ctx.interner.dummy_span();
    Ok(Answer::Related(relate(ctx, param_env, lhs, relation, rhs, span)))
}

// Relates two lists of arguments in a context where that is assumed.
pub(super) fn ask_args_related<I: Interner>(
    ctx: &mut RefCtxt<I>,
    terms: &Ready<I>,
    assumed: Parts,
    lhs: Parts,
    rhs: Parts,
) -> Outcome<I>
    requires lawful { IsLawful (I.meaning ctx.old.interner) ctx.old.inner }
    requires ready { AllReady (I.meaning ctx.old.interner) terms.now }
    ensures lawful { IsLawful (I.meaning ctx.new.interner) ctx.new.inner }
    ensures grown { Extends (I.meaning ctx.old.interner) (I.meaning ctx.new.interner) }
    ensures known { let m = I.meaning ctx.new.interner in
        IfOk result (KnowsAnswer m (KnowsRelated m)) }
{
    let lhs = args_of(ctx, terms, lhs)?;
    let rhs = args_of(ctx, terms, rhs)?;
    relate_args(ctx, terms, assumed, lhs, rhs)
}
