//! A map and a set that begin to keep what is inserted, and to hash, after their first 32 insertions.
//!
//! They are for what mostly has few insertions: up to there nothing is hashed, and no memory is taken.
//! Beside them stands a map that keeps all, for what is mostly asked for what it hasn't.
#![tactic(auto)]

pub mod kept;
mod map;
mod set;
pub mod widening;

pub use map::DelayedMap;
pub use set::DelayedSet;

/// How many insertions are let go before one is kept.
pub const CACHE_CUTOFF: u32 = 32;
