//! What relating two predicates of a trait answers, and two references of traits.
ghost use Rattle.std.specs.Prelude.{◌≡◌, IfOk};
ghost use Rattle.relation_terms.specs.Meaning.{Extends};
ghost use Rattle.variable_tables.specs.Tables.{IsLawful};
ghost use Rattle.relation_rows.specs.Terms.{byte_alone};

use crate::calls::Differing;
use crate::running::RowFault;
use relation_reference::context::RefCtxt;
use relation_semantics::infer_ctxt::TypingMode;
use relation_terms::predicate::{TraitPredicate, TraitRef};
use relation_terms::terms::{
    GenericArgKind, Interner, OutOfMemory, PredicatePolarity, TraitId, TyKind, UintTy, Variance,
};
use std::fmt::Write;
use text_asking::BUDGET;
use text_asking::printing::write_answer;
use text_terms::printing::TextsOf;
use type_relations::relate::solver_relating::RelateExt;

// That `u8` implements a trait.
fn make_byte_ref<I: Interner>(
    cx: &mut I,
    def_id: TraitId<I::Id>,
) -> Result<TraitRef<I::Key, I::Id>, OutOfMemory>
    ensures grown { Extends (I.meaning cx.old) (I.meaning cx.new) }
    ensures item { IfOk result (λ t. t.def_id ≡ def_id) }
    ensures made { IfOk result (λ t. (I.meaning cx.new).args t.args ≡ byte_alone) }
{
    let ty = cx.mk_ty(TyKind::Uint(UintTy::U8))?;
    let mut args = Vec::new(cx.alloc());
    args.push(GenericArgKind::Ty(ty))?;
    let args = cx.mk_args(&args)?;
    Ok(TraitRef { def_id, args })
}

// Relates, at invariance, that `u8` implements a trait and that it doesn't, and writes the answer.
fn write_polarities<I: Interner, W: Write>(
    ctx: &mut RefCtxt<I>,
    texts: &TextsOf<I>,
    def_id: TraitId<I::Id>,
    out: &mut W,
) -> Result<(), RowFault>
    requires { IsLawful (I.meaning ctx.old.interner) ctx.old.inner }
{
    let param_env = ctx.interner.empty_param_env()?;
    let trait_ref = make_byte_ref(&mut ctx.interner, def_id)?;
    let polarity = PredicatePolarity::Positive;
    let lhs = TraitPredicate {
        trait_ref,
        polarity,
    };
    let polarity = PredicatePolarity::Negative;
    let rhs = TraitPredicate {
        trait_ref,
        polarity,
    };
    let span = ctx.interner.dummy_span();
    let answer = ctx.relate(param_env, lhs, Variance::Invariant, rhs, span);
    write_answer(ctx, texts, &answer, out)?;
    Ok(())
}

// The same of that it implements one trait and that it implements another.
fn write_traits<I: Interner, W: Write>(
    ctx: &mut RefCtxt<I>,
    texts: &TextsOf<I>,
    def_ids: (TraitId<I::Id>, TraitId<I::Id>),
    out: &mut W,
) -> Result<(), RowFault>
    requires { IsLawful (I.meaning ctx.old.interner) ctx.old.inner }
{
    let param_env = ctx.interner.empty_param_env()?;
    let lhs = make_byte_ref(&mut ctx.interner, def_ids.0)?;
    let rhs = TraitRef {
        def_id: def_ids.1,
        args: lhs.args,
    };
    let span = ctx.interner.dummy_span();
    let answer = ctx.relate(param_env, lhs, Variance::Invariant, rhs, span);
    write_answer(ctx, texts, &answer, out)?;
    Ok(())
}

// Relates predicates of the first trait, or references of both, and writes the answer.
fn write_differing<I: Interner, W: Write>(
    ctx: &mut RefCtxt<I>,
    texts: &TextsOf<I>,
    def_ids: (TraitId<I::Id>, TraitId<I::Id>),
    differing: Differing,
    out: &mut W,
) -> Result<(), RowFault>
    requires { IsLawful (I.meaning ctx.old.interner) ctx.old.inner }
{
    match differing {
        Differing::Polarity => write_polarities(ctx, texts, def_ids.0, out),
        Differing::Trait => write_traits(ctx, texts, def_ids, out),
    }
}

/// The same in a new context over an interner.
pub(super) fn relate_new<I: Interner + Drop, W: Write>(
    cx: I,
    texts: &TextsOf<I>,
    def_ids: (TraitId<I::Id>, TraitId<I::Id>),
    differing: Differing,
    out: &mut W,
) -> Result<(), RowFault> {
    let mut ctx = RefCtxt::new(cx, TypingMode::PostAnalysis, true, BUDGET)?;
    write_differing(&mut ctx, texts, def_ids, differing, out)
}
