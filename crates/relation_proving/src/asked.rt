//! What came of goals that were asked.
ghost use Rattle.std.specs.Prelude.{◌≡◌, [], length, take, IfSome, OnOk};
ghost use Rattle.relation_proving.specs.Remembering.{WasProved, TellsAgain, proved_with};

use crate::spent::SpentGoals;
use crate::told::{Told, Why};
use delayed_map::DelayedMap;
use std::alloc::Global;
use std::hash::Hash;
use std::marker::Model;
use term_enums::OutOfMemory;

/// Goals in which no variable but of regions stands: those that were proved in what is recorded now, and those whose
/// depth was spent. Of those that were proved it finds none of the first 32.
#[derive(Drop)]
pub(crate) struct AskedGoals<T: Eq + Hash> {
    // In the order in which they were proved, each with the place of the rule by which it follows.
    proved: Vec<(T, usize)>,
    // The number of each; of one that was let go it may be another's by now, or of none.
    numbers: DelayedMap<T, usize>,
    spent: SpentGoals<T>,
}

impl<T: Eq + Hash> Model for AskedGoals<T> {
    ghost use Rattle.std.specs.Prelude.{ℕ, List};
    ghost use Rattle.std.specs.Coded.{coded×, coded_list, coded_ℕ};

    ghost Value = { List (T × ℕ) };

    ghost coded = { coded_list (coded× T.code coded_ℕ) };

    ghost view = { λ a. a.proved.items };
}

impl<T: Eq + Hash + Copy> AskedGoals<T> {
    /// None was asked. It takes no memory.
    pub(crate) fn new(alloc: Global) -> Self
        ensures { result ≡ [] }
    {
        AskedGoals {
            proved: Vec::new(alloc),
            numbers: DelayedMap::new(alloc),
            spent: SpentGoals::new(alloc),
        }
    }

    // The place of the rule by which an equal goal follows, if it was proved.
    fn proved_by(&self, goal: &Option<T>) -> Option<usize>
        ensures { IfSome result (λ by. WasProved T.eq goal.now by self.now) }
    {
        let Some(goal) = goal else {
            return None;
        };
        let number = self.numbers.get(goal)?;
        let entry = self.proved.get(*number)?;
        if *goal == entry.0 {
            Some(entry.1)
        } else {
            None
        }
    }

    /// What is told of a goal again, that is asked with so many levels left: that it follows, if it was proved, or that
    /// the depth is spent, if it was with as many left, or more. Of none nothing is.
    pub(crate) fn find<X>(&self, goal: &Option<T>, levels: usize) -> Option<Told<X>>
        ensures { IfSome result (TellsAgain T.eq goal.now self.now) }
    {
        if let Some(by) = self.proved_by(goal) {
            return Some(Told::Yes(by));
        }
        if self.spent.spends(goal, levels) {
            return Some(Told::Maybe(Why::Depth));
        }
        None
    }

    /// Keeps what came of a goal that was asked with so many levels left. Of none it keeps nothing.
    ///
    /// # Errors
    /// `OutOfMemory` where a growth was refused.
    pub(crate) fn insert<X>(
        &mut self,
        goal: Option<T>,
        told: &Told<X>,
        levels: usize,
    ) -> Result<(), OutOfMemory>
        ensures { OnOk result (self.new ≡ proved_with goal told.now self.old) }
    {
        let Some(key) = goal else {
            return Ok(());
        };
        match told {
            Told::Yes(by) => {
                let number = self.proved.len();
                self.numbers.insert(key, number)?;
                self.proved.push((key, *by))?;
                Ok(())
            }
            Told::No(_) => Ok(()),
            Told::Maybe(_) => self.spent.insert(Some(key), told, levels),
        }
    }

    /// How many were proved.
    pub(crate) fn len(&self) -> usize
        ensures { result ≡ length self.now }
    {
        self.proved.len()
    }

    /// Lets all go that were proved but the first ones, so many.
    pub(crate) fn truncate(&mut self, len: usize)
        ensures { self.new ≡ take len self.old }
    {
        self.proved.truncate(len);
    }
}
