//! Interners whose keys have a known size, over which all questions can be asked.
ghost use Rattle.std.specs.Prelude.{IsTrue, IfOk};
ghost use Rattle.relation_terms.specs.Trees.{known};
ghost use Rattle.relation_terms.specs.Meaning.{Extends, arg_tree};
ghost use Rattle.text_asking.specs.Meets.{AllKnown};
ghost use Rattle.text_asking.specs.Outlives.{KnowsComponents, AreComponents, HasComponents};
ghost use Rattle.text_asking.specs.Skips.{AreYielded};

use crate::walking::walk_on;
use reference_interner::RefInterner;
use relation_terms::terms::{GenericArg, Interner, LocalDefIds, OutOfMemory, Ty};
use relation_tools::outlives::{ComponentOf, push_outlives_components};
use relation_tools::walk::TypeWalker;
use smallvec::SmallVec;

/// An interner whose terms can be walked, and of whose types it can be asked what has to outlive a region. Both keep
/// some keys in place, and not every interner says that so many fit in memory. It has the list that typing modes name.
pub trait SizedKeys: Interner {
    /// What a walk over an argument yields, in order, if what is under the last yielded argument is skipped after the
    /// pulls of these numbers, 0 before the first. A number may stand more than once, and may be behind the end.
    ///
    /// # Errors
    /// `OutOfMemory` where a growth was refused.
    fn walk(
        &self,
        root: &GenericArg<Self>,
        skips: &[usize],
    ) -> Result<Vec<GenericArg<Self>>, OutOfMemory>
        requires known { IsTrue (known (arg_tree (Self.meaning self.now) root.now)) }
        ensures sure { IfOk result (λ xs. AllKnown (Self.meaning self.now) xs.items) }
        ensures by_places { IfOk result (λ xs. AreYielded (Self.meaning self.now) root.now skips.now xs.items) };

    /// The components of a type: what has to outlive a region for the type to outlive it.
    ///
    /// # Errors
    /// `OutOfMemory` where a growth was refused.
    fn components(&self, ty: &Ty<Self>) -> Result<Vec<ComponentOf<Self>>, OutOfMemory>
        requires known { IsTrue (known ((Self.meaning self.now).ty ty.now)) }
        ensures sure { IfOk result (λ cs. KnowsComponents (Self.meaning self.now) cs.items) }
        ensures some { IfOk result (λ cs. AreComponents (Self.meaning self.now) ty.now cs.items) }
        ensures all { IfOk result (λ cs. HasComponents (Self.meaning self.now) ty.now cs.items) };

    /// The list without ids of items.
    ///
    /// # Errors
    /// `OutOfMemory` where a growth was refused.
    fn no_local_def_ids(&mut self) -> Result<LocalDefIds<Self>, OutOfMemory>
        ensures grown { Extends (Self.meaning self.old) (Self.meaning self.new) };
}

impl SizedKeys for RefInterner {
    fn walk(
        &self,
        root: &GenericArg<Self>,
        skips: &[usize],
    ) -> Result<Vec<GenericArg<Self>>, OutOfMemory> {
        let mut walker = TypeWalker::new(self, *root);
        walk_on(self.alloc(), &mut walker, root, skips)
    }

    #[tactic(auto, using(crate::proofs::OutlivesLemmas::found_known))]
    fn components(&self, ty: &Ty<Self>) -> Result<Vec<ComponentOf<Self>>, OutOfMemory> {
        let mut found = SmallVec::new(self.alloc());
        push_outlives_components(self, ty, &mut found)?;
        Ok(found.into_vec()?)
    }

    fn no_local_def_ids(&mut self) -> Result<LocalDefIds<Self>, OutOfMemory> {
        self.no_local_def_ids()
    }
}
