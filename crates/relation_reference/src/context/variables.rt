//! The context, and what is asked of it as a whole.
ghost use Rattle.std.specs.Prelude.{◌≡◌, IfOk, true};
ghost use Rattle.relation_terms.specs.Meaning.{Extends};
ghost use Rattle.variable_tables.specs.Tables.{IsLawful};
ghost use Rattle.relation_reference.specs.RefCtxt.{IsNew};

use crate::context::InferCtxtInner;
use crate::context::numbers::number_keys;
use relation_semantics::infer_ctxt::TypingMode;
use relation_terms::predicate::{OutlivesPredicate, RegionConstraint};
use relation_terms::terms::{ErrorGuaranteed, Interner, OutOfMemory, TyKey, UniverseIndex};
use std::alloc::Global;
use variable_classes::VariableClasses;
use variable_tables::table::VariableTable;

/// An inference context: an interner, and what is recorded of variables and regions.
#[derive(Drop)]
pub struct RefCtxt<I: Interner> {
    pub interner: I,
    pub inner: InferCtxtInner<I::Key>,
}

// Tables without variables and constraints, at the first universe.
fn empty_tables<X>(
    alloc: Global,
    mode: TypingMode<X>,
    next_solver: bool,
    budget: usize,
    numbers: Vec<TyKey<X>>,
) -> InferCtxtInner<X>
    ensures new { IsNew result }
    ensures first_universe { result.universe.0 ≡ 0 }
    ensures budget { result.budget ≡ budget }
    ensures numbers { result.numbers ≡ numbers }
    ensures next_solver { result.next_solver ≡ next_solver }
    ensures mode { result.mode ≡ mode }
{
    InferCtxtInner {
        types: VariableTable::new(alloc),
        ints: VariableTable::new(alloc),
        floats: VariableTable::new(alloc),
        consts: VariableTable::new(alloc),
        regions: VariableTable::new(alloc),
        constraints: Vec::new(alloc),
        ty_outlives: Vec::new(alloc),
        sub_roots: VariableClasses::new(alloc),
        universe: UniverseIndex(0),
        budget,
        next_solver,
        mode,
        tainted: false,
        numbers,
    }
}

impl<I: Interner + Drop> RefCtxt<I> {
    /// A context at the first universe, without variables and constraints, in a typing mode, for the next solver or the
    /// old one, which may make so many instantiations. No error was met. It makes the keys of all integer and float
    /// types.
    ///
    /// # Errors
    /// `OutOfMemory` where a growth was refused.
    pub fn new(
        interner: I,
        mode: TypingMode<I::Key>,
        next_solver: bool,
        budget: usize,
    ) -> Result<RefCtxt<I>, OutOfMemory>
        ensures grown { IfOk result (λ c. Extends (I.meaning interner) (I.meaning c.interner)) }
        ensures lawful { IfOk result (λ c. IsLawful (I.meaning c.interner) c.inner) }
        ensures new { IfOk result (λ c. IsNew c.inner) }
        ensures first_universe { IfOk result (λ c. c.inner.universe.0 ≡ 0) }
        ensures budget { IfOk result (λ c. c.inner.budget ≡ budget) }
        ensures next_solver { IfOk result (λ c. c.inner.next_solver ≡ next_solver) }
        ensures mode { IfOk result (λ c. c.inner.mode ≡ mode) }
    {
        let mut interner = interner;
        let numbers = number_keys(&mut interner)?;
        let inner = empty_tables(interner.alloc(), mode, next_solver, budget, numbers);
        Ok(RefCtxt { interner, inner })
    }
}

impl<I: Interner> RefCtxt<I> {
    /// A context over the same interner, as `new` makes one. It takes no memory.
    pub fn reset(self, mode: TypingMode<I::Key>, next_solver: bool, budget: usize) -> RefCtxt<I>
        requires { IsLawful (I.meaning self.interner) self.inner }
        ensures interner { result.interner ≡ self.interner }
        ensures lawful { IsLawful (I.meaning self.interner) result.inner }
        ensures new { IsNew result.inner }
        ensures first_universe { result.inner.universe.0 ≡ 0 }
        ensures budget { result.inner.budget ≡ budget }
        ensures next_solver { result.inner.next_solver ≡ next_solver }
        ensures mode { result.inner.mode ≡ mode }
    {
        let RefCtxt { interner, inner } = self;
        let inner = empty_tables(interner.alloc(), mode, next_solver, budget, inner.numbers);
        RefCtxt { interner, inner }
    }

    /// Whether an error was met.
    pub fn tainted(&self) -> bool
        ensures { result ≡ self.now.inner.tainted }
    {
        self.inner.tainted
    }

    /// Records that an error was met. All else stands.
    pub fn set_tainted_by_errors(&mut self, _e: ErrorGuaranteed)
        requires { IsLawful (I.meaning self.old.interner) self.old.inner }
        ensures interner { self.new.interner ≡ self.old.interner }
        ensures lawful { IsLawful (I.meaning self.old.interner) self.new.inner }
        ensures sets { self.new.inner ≡ record self.old.inner { tainted = true } }
    {
        let inner = &mut self.inner;
        inner.tainted = true;
    }

    /// Sets how many instantiations may still be made. All else stands.
    pub fn set_budget(&mut self, budget: usize)
        requires { IsLawful (I.meaning self.old.interner) self.old.inner }
        ensures interner { self.new.interner ≡ self.old.interner }
        ensures lawful { IsLawful (I.meaning self.old.interner) self.new.inner }
        ensures sets { self.new.inner ≡ record self.old.inner { budget = budget } }
    {
        let inner = &mut self.inner;
        inner.budget = budget;
    }

    /// The constraints on regions, in the order in which they were recorded, repeats among them.
    pub fn region_constraints(&self) -> &[RegionConstraint<I::Key>]
        ensures { result.now ≡ self.now.inner.constraints.items }
    {
        self.inner.constraints.as_slice()
    }

    /// The types that are to outlive regions, in the order in which that was registered, repeats among them.
    pub fn ty_outlives(&self) -> &[OutlivesPredicate<I::Key, TyKey<I::Key>>]
        ensures { result.now ≡ self.now.inner.ty_outlives.items }
    {
        self.inner.ty_outlives.as_slice()
    }
}
