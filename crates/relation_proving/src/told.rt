//! What is told of a goal.
use relation_terms::terms::{ClauseKey, Keys};

/// Why it isn't told whether a goal follows.
#[derive(Clone, Copy, PartialEq, Eq)]
pub enum Why {
    /// More than one rule may be meant, or the goal or a rule has a form of which nothing is told.
    Ambiguous,
    /// The depth is spent.
    Depth,
}

/// A goal that failed, and the rule that asked for it, over keys.
#[derive(Clone, Copy, PartialEq, Eq)]
pub struct Blame<X> {
    /// No rule gives it. Its variables are read by what was recorded when it was asked.
    pub goal: ClauseKey<X>,
    /// The place of the rule that asked for it.
    pub by: usize,
}

/// The same over an interner's keys.
pub type BlameOf<I> = Blame<<I as Keys>::Key>;

/// Whether a goal follows from rules, over keys.
#[derive(Clone, Copy, PartialEq, Eq)]
pub enum Told<X> {
    /// It does, by the rule at this place and what is recorded then.
    Yes(usize),
    /// It does not: no rule gives it, or of the first rule that does this goal failed.
    No(Option<Blame<X>>),
    /// That isn't told.
    Maybe(Why),
}

/// The same over an interner's keys.
pub type ToldOf<I> = Told<<I as Keys>::Key>;
