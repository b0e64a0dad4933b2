//! What the pulls of elaborations answer, and how that is written.
ghost use Rattle.std.specs.Prelude.{◌≡◌, ◌∷◌, ◌||◌, [], codes, IsTrue, IfOk, IfSome, OnOk};
ghost use Rattle.std.specs.Fmt.{WritesInCalls};
ghost use Rattle.std.specs.List.{All};
ghost use Rattle.relation_terms.specs.Trees.{known};
ghost use Rattle.relation_terms.specs.Meaning.{Meaning, Extends};
ghost use Rattle.relation_terms.specs.Owned.{bound_tree};
ghost use Rattle.relation_statements.specs.Children.{mode_of};
ghost use Rattle.text_elaboration.specs.Pulls.{KnowsPulled, AnswersOne, Answers, AnswersBegun, Elaborates, most, is_last};
ghost use Rattle.text_elaboration.specs.Pulls.{FindsOne, FindsUpTo, WentOn, AnswersSupertraits, ReachesOne, AreReached};
ghost use Rattle.text_elaboration.specs.Pulls.{sign_text};

use relation_terms::predicate::{TraitRef, clause_of_trait_ref};
use relation_terms::terms::{
    Binder, Clause, ClauseKey, DefId, Interner, Keys, OutOfMemory, TraitId,
};
use relation_tools::elaborate::{Elaborator, FilterToTraits, SupertraitDefIds, supertrait_def_ids};
use relation_tools::error::ElabFault;
use std::alloc::Global;
use std::fmt::{self, Write};
use text_clauses::printing::{write_bound, write_clause};
use text_terms::printing::{TextsOf, write_item_name};

/// How many different predicates an elaboration may meet where nothing is said of it.
pub const LIMIT: usize = 100;

/// What a pull answers: a predicate, a trait reference or a trait, that the limit is met, or that nothing is left.
#[derive(Clone, Copy)]
pub enum Pulled<X, D> {
    Clause(ClauseKey<X>),
    Bound(Binder<X, TraitRef<X, D>>),
    Trait(TraitId<D>),
    Limit,
    End,
}

impl<X: Copy, D: Copy> Pulled<X, D> {
    // Whether no more is pulled behind it: nothing is left, or the limit is met, if that is an end.
    fn is_last(&self, at_limit: bool) -> bool
        ensures { result ≡ is_last at_limit self.now }
    {
        match self {
            Pulled::End => true,
            Pulled::Limit => at_limit,
            _ => false,
        }
    }
}

/// What a pull answers over an interner.
pub type PulledOf<I> = Pulled<<I as Keys>::Key, <I as Keys>::Id>;

/// How an elaboration goes: which of the predicates that are stated it follows, how many different ones there may be,
/// and how often is pulled, if that is said; else until nothing is left, or the limit is met.
#[derive(Clone, Copy)]
pub struct Manner {
    pub only_self: bool,
    pub sized: bool,
    pub limit: Option<usize>,
    pub pulls: Option<usize>,
}

impl Manner {
    // How many different predicates there may be.
    fn limit(&self) -> usize
        ensures { result ≡ most self.now }
    {
        self.limit.unwrap_or(LIMIT)
    }

    // How often is pulled at most. Each pull but the last yields one more predicate, of no more than the limit.
    fn pulls(&self) -> usize {
        self.pulls.unwrap_or(self.limit().saturating_add(1))
    }
}

// The same elaboration, which goes to super-predicates alone if that is said.
fn with_self<'a, I: Interner>(
    elaborator: Elaborator<'a, I, Clause<I>>,
    only_self: bool,
) -> Elaborator<'a, I, Clause<I>>
    ensures { result ≡ record elaborator.entry {
      mode = mode_of ((elaborator.entry).mode.only_self || only_self) (elaborator.entry).mode.sized;
    } }
{
    if only_self {
        elaborator.filter_only_self()
    } else {
        elaborator
    }
}

// The same elaboration, which goes on from `Sized` if that is said.
fn with_sized<'a, I: Interner>(
    elaborator: Elaborator<'a, I, Clause<I>>,
    sized: bool,
) -> Elaborator<'a, I, Clause<I>>
    ensures { result ≡ record elaborator.entry {
      mode = mode_of (elaborator.entry).mode.only_self ((elaborator.entry).mode.sized || sized);
    } }
{
    if sized {
        elaborator.elaborate_sized()
    } else {
        elaborator
    }
}

// What the next pull of an elaboration answers.
fn pull_one<I: Interner>(
    elaborator: &mut Elaborator<'_, I, Clause<I>>,
) -> Result<PulledOf<I>, OutOfMemory>
    ensures same_reference { elaborator.new.reference ≡ elaborator.old.reference }
    ensures grown { Extends (I.meaning elaborator.old.cx) (I.meaning elaborator.new.cx) }
    ensures sure { IfOk result (KnowsPulled (I.meaning elaborator.new.cx)) }
    ensures answers { IfOk result (λ p. AnswersOne I.meaning elaborator.old p elaborator.new) }
{
    match elaborator.pull() {
        None => Ok(Pulled::End),
        Some(Ok(clause)) => Ok(Pulled::Clause(clause)),
        Some(Err(ElabFault::Limit)) => Ok(Pulled::Limit),
        Some(Err(ElabFault::Memory)) => Err(OutOfMemory),
    }
}

// What so many pulls of an elaboration answer, or those up to the last one.
fn pull_all<I: Interner>(
    elaborator: &mut Elaborator<'_, I, Clause<I>>,
    count: usize,
    at_limit: bool,
) -> Result<Vec<PulledOf<I>>, OutOfMemory>
    ensures same_reference { elaborator.new.reference ≡ elaborator.old.reference }
    ensures grown { Extends (I.meaning elaborator.old.cx) (I.meaning elaborator.new.cx) }
    ensures sure { IfOk result (λ all. All (KnowsPulled (I.meaning elaborator.new.cx)) all.items) }
    ensures answers { IfOk result (λ all. Answers I.meaning elaborator.old all.items elaborator.new) }
{
    let mut all = Vec::new(elaborator.cx().alloc());
    for _ in 0..count {
        let pulled = pull_one(elaborator)?;
        all.push(pulled)?;
        if pulled.is_last(at_limit) {
            return Ok(all);
        }
    }
    Ok(all)
}

// The one answer of an elaboration that can't begin.
fn limit_alone<X: Copy, D: Copy>(alloc: Global) -> Result<Vec<Pulled<X, D>>, OutOfMemory>
    ensures { IfOk result (λ all. all.items ≡ Pulled.Limit ∷ []) }
{
    let mut all = Vec::new(alloc);
    all.push(Pulled::Limit)?;
    Ok(all)
}

// What the pulls of an elaboration answer that took up what it was to, or why it did not.
fn pull_begun<I: Interner>(
    elaborator: &mut Elaborator<'_, I, Clause<I>>,
    begun: Result<(), ElabFault>,
    manner: &Manner,
) -> Result<Vec<PulledOf<I>>, OutOfMemory>
    ensures same_reference { elaborator.new.reference ≡ elaborator.old.reference }
    ensures grown { Extends (I.meaning elaborator.old.cx) (I.meaning elaborator.new.cx) }
    ensures sure { IfOk result (λ all. All (KnowsPulled (I.meaning elaborator.new.cx)) all.items) }
    ensures answers { IfOk result (λ all. AnswersBegun I.meaning begun elaborator.old all.items elaborator.new) }
{
    let alloc = elaborator.cx().alloc();
    match begun {
        Ok(()) => pull_all(elaborator, manner.pulls(), manner.pulls.is_none()),
        Err(ElabFault::Limit) => limit_alone(alloc),
        Err(ElabFault::Memory) => Err(OutOfMemory),
    }
}

/// What follows from predicates, pull by pull. Where the given ones are more than the limit allows, that is the one
/// answer. The interner has to know the predicates.
///
/// # Errors
/// `OutOfMemory` where a growth was refused. All keys keep their meanings.
pub fn elaborated<I: Interner>(
    cx: &mut I,
    clauses: Vec<Clause<I>>,
    manner: &Manner,
) -> Result<Vec<PulledOf<I>>, OutOfMemory>
    requires { All (λ k. IsTrue (known ((I.meaning cx.old).clause k))) clauses.items }
    ensures grown { Extends (I.meaning cx.old) (I.meaning cx.new) }
    ensures sure { IfOk result (λ all. All (KnowsPulled (I.meaning cx.new)) all.items) }
    ensures answers { IfOk result (λ all. Elaborates I.meaning cx.old clauses.items manner.now all.items) }
{
    let mut elaborator = Elaborator::new(cx, manner.limit());
    let begun = elaborator.extend_deduped(clauses);
    let elaborator = with_self(elaborator, manner.only_self);
    let mut elaborator = with_sized(elaborator, manner.sized);
    let all = pull_begun(&mut elaborator, begun, manner);
    let _ = elaborator.into_cx();
    all
}

// What the next pull of supertraits answers.
fn pull_trait<I: Interner>(
    traits: &mut FilterToTraits<I, Elaborator<'_, I, Clause<I>>>,
) -> Result<PulledOf<I>, OutOfMemory>
    ensures same_reference { traits.new.reference ≡ traits.old.reference }
    ensures grown { Extends (I.meaning traits.old.cx) (I.meaning traits.new.cx) }
    ensures sure { IfOk result (KnowsPulled (I.meaning traits.new.cx)) }
    ensures finds { IfOk result (λ p. FindsOne I.meaning traits.old p traits.new) }
{
    match traits.next() {
        None => Ok(Pulled::End),
        Some(Ok(bound)) => Ok(Pulled::Bound(bound)),
        Some(Err(ElabFault::Limit)) => Ok(Pulled::Limit),
        Some(Err(ElabFault::Memory)) => Err(OutOfMemory),
    }
}

// What so many pulls of supertraits answer, or those up to the last one.
fn pull_traits<I: Interner>(
    traits: &mut FilterToTraits<I, Elaborator<'_, I, Clause<I>>>,
    count: usize,
) -> Result<Vec<PulledOf<I>>, OutOfMemory>
    ensures same_reference { traits.new.reference ≡ traits.old.reference }
    ensures grown { Extends (I.meaning traits.old.cx) (I.meaning traits.new.cx) }
    ensures sure { IfOk result (λ all. All (KnowsPulled (I.meaning traits.new.cx)) all.items) }
    ensures finds { IfOk result (λ all. FindsUpTo I.meaning traits.old all.items traits.new) }
    ensures went_on { IfOk result (λ all. WentOn count all.items) }
{
    let mut all = Vec::new(traits.cx().alloc());
    for _ in 0..count {
        let pulled = pull_trait(traits)?;
        all.push(pulled)?;
        if pulled.is_last(true) {
            return Ok(all);
        }
    }
    Ok(all)
}

/// The supertraits of a trait reference, pull by pull, up to the one behind the last that the limit allows: the trait
/// references of all trait clauses that follow by super-predicates, itself first. The interner has to know the trait
/// reference.
///
/// # Errors
/// `OutOfMemory` where a growth was refused. All keys keep their meanings.
pub fn supertraits_of<I: Interner>(
    cx: &mut I,
    of: Binder<I::Key, TraitRef<I::Key, I::Id>>,
    limit: usize,
) -> Result<Vec<PulledOf<I>>, OutOfMemory>
    requires { IsTrue (known (bound_tree (I.meaning cx.old) of)) }
    ensures grown { Extends (I.meaning cx.old) (I.meaning cx.new) }
    ensures sure { IfOk result (λ all. All (KnowsPulled (I.meaning cx.new)) all.items) }
    ensures answers { IfOk result (λ all.
        AnswersSupertraits (I.meaning cx.old) (I.meaning cx.new) of limit all.items) }
{
    let clause = clause_of_trait_ref(cx, of)?;
    let mut clauses = Vec::new(cx.alloc());
    clauses.push(clause)?;
    let mut elaborator = Elaborator::new(cx, limit).filter_only_self();
    // What this answers the first pull answers again.
    let _ = elaborator.extend_deduped(clauses);
    let mut traits = FilterToTraits::new(elaborator);
    let all = pull_traits(&mut traits, limit.saturating_add(1));
    let _ = traits.into_base().into_cx();
    all
}

// What the next pull of traits answers.
fn pull_id<I: Interner>(ids: &mut SupertraitDefIds<'_, I>) -> Result<PulledOf<I>, OutOfMemory>
    ensures sure { (m : Meaning I.Key I.Id I.Name) → IfOk result (KnowsPulled m) }
    ensures reaches { IfOk result (λ p. ReachesOne I.meaning ids.old p ids.new) }
{
    match ids.next() {
        Some(trait_id) => Ok(Pulled::Trait(trait_id?)),
        None => Ok(Pulled::End),
    }
}

/// The traits that a trait leads to by super-predicates, itself first and each once, pull by pull, of which there are
/// up to so many.
///
/// # Errors
/// `OutOfMemory` where a growth was refused.
pub fn supertrait_ids_of<I: Interner>(
    cx: &I,
    of: I::Id,
    most: usize,
) -> Result<Vec<PulledOf<I>>, OutOfMemory>
    ensures sure { (m : Meaning I.Key I.Id I.Name) → IfOk result (λ all. All (KnowsPulled m) all.items) }
    ensures reached { IfOk result (λ all. AreReached (I.meaning cx.now) ((I.meaning cx.now).id of) most all.items) }
{
    let mut all = Vec::new(cx.alloc());
    let mut ids = supertrait_def_ids(cx, TraitId(of))?;
    for _ in 0..most.saturating_add(1) {
        let pulled = pull_id(&mut ids)?;
        all.push(pulled)?;
        if pulled.is_last(true) {
            return Ok(all);
        }
    }
    Ok(all)
}

// Writes what a pull answered.
fn write_pulled<I: Interner, W: Write>(
    cx: &I,
    texts: &TextsOf<I>,
    pulled: &PulledOf<I>,
    out: &mut W,
) -> fmt::Result
    requires { KnowsPulled (I.meaning cx.now) pulled.now }
    ensures { IfSome (sign_text pulled.now) (λ t. OnOk result (WritesInCalls W.write_str_gives out.old t out.new)) }
{
    match pulled {
        Pulled::Clause(clause) => write_clause(cx, texts, clause, out),
        Pulled::Bound(bound) => write_bound(cx, texts, bound, out),
        Pulled::Trait(trait_id) => write_item_name::<I, W>(texts, &DefId(trait_id.0), out),
        Pulled::Limit => out.write_str("limit"),
        Pulled::End => out.write_str("end"),
    }
}

/// Writes what pulls answered, or `none` where there were none. The interner has to know what they answered.
///
/// # Errors
/// What the writer answers where it takes no more. What it took before stands.
pub fn write_pulls<I: Interner, W: Write>(
    cx: &I,
    texts: &TextsOf<I>,
    pulls: &[PulledOf<I>],
    out: &mut W,
) -> fmt::Result
    requires { All (KnowsPulled (I.meaning cx.now)) pulls.now }
    ensures none { pulls.now ≡ [] → OnOk result (WritesInCalls W.write_str_gives out.old (codes "none") out.new) }
{
    if pulls.is_empty() {
        return out.write_str("none");
    }
    for (place, pulled) in pulls.iter().enumerate() {
        if place > 0 {
            out.write_str(" | ")?;
        }
        write_pulled(cx, texts, pulled, out)?;
    }
    Ok(())
}
