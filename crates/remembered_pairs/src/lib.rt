//! Pairs that were related, each with the variance at which it was.
#![tactic(auto)]

ghost use Rattle.std.specs.Prelude.{◌≡◌, ◌⊎◌, [], Contains, IsTrue, OnErr};
ghost use Rattle.remembered_pairs.specs.Remembering.{IsRemembered};

mod kept;

use kept::KeptValues;
use std::alloc::Global;
use std::hash::{Hash, Hasher};
use term_enums::hashing::KeyHasher;
use term_enums::{OutOfMemory, Variance};

/// Pairs that were related, each with the variance at which it was: all but the first 32.
#[derive(Drop)]
pub struct RememberedPairs<T: Eq + Hash> {
    pairs: KeptValues<(Variance, T, T)>,
}

// Where looking for a pair begins, at whatever variance: few are met at two.
#[inline(always)]
fn first_place<T: Hash>(a: &T, b: &T) -> u32 {
    let mut hasher = KeyHasher::default();
    a.hash(&mut hasher);
    b.hash(&mut hasher);
    (hasher.finish() & 0xFFFF_FFFF) as u32
}

impl<T: Eq + Hash + Copy> RememberedPairs<T> {
    /// None is remembered. It takes no memory.
    pub fn new(alloc: Global) -> Self
        ensures { result.pairs.kept ≡ [] }
    {
        RememberedPairs {
            pairs: KeptValues::new(alloc),
        }
    }

    /// Whether a pair of two that equal these is remembered at the variance.
    #[inline(always)]
    pub fn contains(&self, variance: Variance, a: &T, b: &T) -> bool
        ensures { IsTrue result → IsRemembered T.eq variance a.now b.now self.now.pairs.kept }
    {
        let first = first_place(a, b);
        self.pairs.contains(&(variance, *a, *b), first)
    }

    /// Remembers two at the variance, but lets the first 32 go.
    ///
    /// # Errors
    /// `OutOfMemory` where a growth was refused. Nothing more is remembered then.
    pub fn insert(&mut self, variance: Variance, a: &T, b: &T) -> Result<(), OutOfMemory>
        ensures no_more { (p : _) → Contains self.new.pairs.kept p →
            (p ≡ (variance, a.now, b.now)) ⊎ Contains self.old.pairs.kept p }
        ensures refused { OnErr result (self.new.pairs.kept ≡ self.old.pairs.kept) }
    {
        let first = first_place(a, b);
        self.pairs.insert((variance, *a, *b), first)?;
        Ok(())
    }
}
