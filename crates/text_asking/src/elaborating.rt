//! What follows from predicates, and the supertraits of traits, that are asked for.
ghost use Rattle.std.specs.Prelude.{IsTrue, IfOk, IfSome};
ghost use Rattle.std.specs.List.{All};
ghost use Rattle.relation_terms.specs.Trees.{known};
ghost use Rattle.relation_terms.specs.Meaning.{Extends};
ghost use Rattle.relation_terms.specs.Owned.{bound_tree};
ghost use Rattle.text_clauses.specs.Made.{MakesEach};
ghost use Rattle.text_elaboration.specs.Pulls.{KnowsPulled};
ghost use Rattle.variable_tables.specs.Tables.{IsLawful};
ghost use Rattle.text_asking.specs.Asking.{AllReady, KnowsAnswer, KnowsRelated};

use crate::question::{Answer, Outcome, Ready, Unasked};
use relation_reference::context::RefCtxt;
use relation_terms::predicate::TraitRef;
use relation_terms::terms::{Binder, Clause, Interner};
use std::fmt::{self, Write};
use text_clauses::building::{build_bound, build_clauses};
use text_elaboration::pulls::{
    LIMIT, Manner, Pulled, PulledOf, elaborated, supertrait_ids_of, supertraits_of, write_pulls,
};
use text_reading::naming::Parts;
use text_terms::printing::TextsOf;

// How many predicates are told at most. Each is written with three bytes or more: so many are more than an answer has.
const MOST: usize = 349_526;

// A number of predicates, or that of all that are told.
pub(super) fn told(count: Option<usize>) -> Option<usize> {
    match count {
        None => None,
        Some(count) => Some(count.min(MOST)),
    }
}

// The clauses of a range of a program's predicates. There are none where a growth was refused.
pub(super) fn clauses_of<I: Interner>(
    cx: &mut I,
    terms: &Ready<I>,
    range: Parts,
) -> Option<Vec<Clause<I>>>
    requires { AllReady (I.meaning cx.old) terms.now }
    ensures grown { Extends (I.meaning cx.old) (I.meaning cx.new) }
    ensures sure { IfSome result (λ ks. All (λ k. IsTrue (known ((I.meaning cx.new).clause k))) ks.items) }
    ensures made { let t = terms.now in
        MakesEach I.meaning cx.old cx.new t.ids.now t.names.now t.parts.now t.built.now t.clauses.now range result }
{
    build_clauses(
        cx,
        terms.ids,
        terms.names,
        terms.parts,
        terms.built,
        terms.clauses,
        range,
    )
}

// What follows from predicates of a program.
#[tactic(auto, using(relation_terms::proofs::Stays::extends_on))]
pub(super) fn ask_elaborated<I: Interner>(
    ctx: &mut RefCtxt<I>,
    terms: &Ready<I>,
    range: Parts,
    manner: &Manner,
) -> Outcome<I>
    requires lawful { IsLawful (I.meaning ctx.old.interner) ctx.old.inner }
    requires ready { AllReady (I.meaning ctx.old.interner) terms.now }
    ensures lawful { IsLawful (I.meaning ctx.new.interner) ctx.new.inner }
    ensures grown { Extends (I.meaning ctx.old.interner) (I.meaning ctx.new.interner) }
    ensures known { let m = I.meaning ctx.new.interner in
        IfOk result (KnowsAnswer m (KnowsRelated m)) }
{
    let Some(clauses) = clauses_of(&mut ctx.interner, terms, range) else {
        return Err(Unasked::Memory);
    };
    match elaborated(&mut ctx.interner, clauses, manner) {
        Ok(all) => Ok(Answer::Pulls(all)),
        Err(_) => Err(Unasked::Memory),
    }
}

// The trait reference that a predicate of a program claims. There is none where a growth was refused.
pub(super) fn bound_of<I: Interner>(
    cx: &mut I,
    terms: &Ready<I>,
    number: usize,
) -> Option<Binder<I::Key, TraitRef<I::Key, I::Id>>>
    requires { AllReady (I.meaning cx.old) terms.now }
    ensures grown { Extends (I.meaning cx.old) (I.meaning cx.new) }
    ensures sure { IfSome result (λ b. IsTrue (known (bound_tree (I.meaning cx.new) b))) }
{
    let clause = terms.clauses.get(number)?;
    build_bound(cx, terms.ids, terms.parts, terms.built, clause)
}

// The supertraits of what a predicate of a program claims, pull by pull.
#[tactic(auto, using(relation_terms::proofs::Stays::extends_on))]
pub(super) fn ask_supertraits<I: Interner>(
    ctx: &mut RefCtxt<I>,
    terms: &Ready<I>,
    clause: usize,
    limit: Option<usize>,
) -> Outcome<I>
    requires lawful { IsLawful (I.meaning ctx.old.interner) ctx.old.inner }
    requires ready { AllReady (I.meaning ctx.old.interner) terms.now }
    ensures lawful { IsLawful (I.meaning ctx.new.interner) ctx.new.inner }
    ensures grown { Extends (I.meaning ctx.old.interner) (I.meaning ctx.new.interner) }
    ensures known { let m = I.meaning ctx.new.interner in
        IfOk result (KnowsAnswer m (KnowsRelated m)) }
{
    let Some(of) = bound_of(&mut ctx.interner, terms, clause) else {
        return Err(Unasked::Memory);
    };
    match supertraits_of(&mut ctx.interner, of, told(limit).unwrap_or(LIMIT)) {
        Ok(all) => Ok(Answer::Pulls(all)),
        Err(_) => Err(Unasked::Memory),
    }
}

// The same of a trait of a program.
pub(super) fn ask_supertrait_ids<I: Interner>(cx: &I, terms: &Ready<I>, item: usize) -> Outcome<I>
    ensures { let m = I.meaning cx.now in
        IfOk result (KnowsAnswer m (KnowsRelated m)) }
{
    let Some(id) = terms.ids.get(item) else {
        return Err(Unasked::Memory);
    };
    match supertrait_ids_of(cx, *id, terms.ids.len()) {
        Ok(all) => Ok(Answer::Pulls(all)),
        Err(_) => Err(Unasked::Memory),
    }
}

// Writes what pulls answered whose limit is lowered: where it is met, what follows may be too deep for the stack.
pub(super) fn write_lowered<I: Interner, W: Write>(
    cx: &I,
    texts: &TextsOf<I>,
    pulls: &[PulledOf<I>],
    out: &mut W,
) -> fmt::Result
    requires { All (KnowsPulled (I.meaning cx.now)) pulls.now }
{
    for place in 0..pulls.len() {
        if place > 0 {
            out.write_str(" | ")?;
        }
        if matches!(pulls[place], Pulled::Limit) {
            out.write_str("too deep")?;
        } else {
            write_pulls(cx, texts, &pulls[place..place + 1], out)?;
        }
    }
    Ok(())
}
