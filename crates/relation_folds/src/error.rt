//! Why two terms do not relate, and why a relation can stop.
ghost use Rattle.std.specs.Prelude.{◌≡◌, ◌↔◌, IsTrue};
ghost use Rattle.relation_folds.specs.Faults.{InvolvesRegions, MustIncludeNote};

pub use relation_terms::terms::OutOfMemory;
use relation_terms::terms::{
    BoundRegion, ConstKey, ExistentialPredicatesKey, ExternAbi, Keys, PredicatePolarity, RegionKey,
    Safety, TraitId, TyKey,
};
use std::alloc::{AllocError, AllocFailed};

/// What was asked for and what was there instead.
#[derive(Clone, Copy, PartialEq, Eq, Debug)]
pub struct ExpectedFound<T> {
    pub expected: T,
    pub found: T,
}

impl<T> ExpectedFound<T> {
    /// The pair of what was asked for and what was there.
    pub fn new(expected: T, found: T) -> ExpectedFound<T>
        ensures expected_kept { result.expected ≡ expected }
        ensures found_kept { result.found ≡ found }
    {
        ExpectedFound { expected, found }
    }
}

/// Why two terms do not relate, over keys, ids of items and names.
#[derive(PartialEq, Eq, Debug)]
pub enum TypeError<X, D, N> {
    /// Two terms differ, and nothing more is told.
    Mismatch,
    /// One predicate says that a trait is implemented, the other that it is not.
    PolarityMismatch(ExpectedFound<PredicatePolarity>),
    /// Of two functions one may be called from safe code alone.
    SafetyMismatch(ExpectedFound<Safety>),
    /// Two functions are called by different conventions.
    AbiMismatch(ExpectedFound<ExternAbi>),
    /// One pointer may change what it leads to, the other may not.
    Mutability,
    /// Of two functions' arguments at this place, one pointer may change what it leads to, the other may not.
    ArgumentMutability(usize),
    /// Two tuples have different numbers of members.
    TupleSize(ExpectedFound<usize>),
    /// Two arrays have different lengths.
    ArraySize(ExpectedFound<ConstKey<X>>),
    /// Two functions have different numbers of arguments.
    ArgCount,
    /// The first region would have to outlive the second.
    RegionsDoesNotOutlive(RegionKey<X>, RegionKey<X>),
    /// A region that a binder binds, and that stands for any, would have to be the second.
    RegionsInsufficientlyPolymorphic(BoundRegion<N>, RegionKey<X>),
    /// A placeholder of a region would have to be another region.
    RegionsPlaceholderMismatch,
    /// Two types have different outermost forms.
    Sorts(ExpectedFound<TyKey<X>>),
    /// Two functions' arguments at this place have different outermost forms.
    ArgumentSorts(ExpectedFound<TyKey<X>>, usize),
    /// Two traits differ.
    Traits(ExpectedFound<TraitId<D>>),
    /// One function takes further arguments behind those that it names, the other does not.
    VariadicMismatch(ExpectedFound<bool>),
    /// A variable would have to equal a type that it stands in.
    CyclicTy(TyKey<X>),
    /// A variable would have to equal a constant that it stands in.
    CyclicConst(ConstKey<X>),
    /// Two projections are of different items.
    ProjectionMismatched(ExpectedFound<D>),
    /// Two trait objects have different predicates.
    ExistentialMismatch(ExpectedFound<ExistentialPredicatesKey<X>>),
    /// Two constants differ.
    ConstMismatch(ExpectedFound<ConstKey<X>>),
    /// A function that the compiler itself provides would have to become a function pointer.
    IntrinsicCast,
    /// A function that is always inlined would have to become a function pointer.
    ForceInlineCast,
    /// The function asks for features of the target, and would have to become a pointer to a safe function.
    TargetFeatureCast(D),
}

/// Why two terms of an interner do not relate.
pub type TypeErrorOf<I> = TypeError<<I as Keys>::Key, <I as Keys>::Id, <I as Keys>::Name>;

impl<X, D, N> TypeError<X, D, N> {
    /// Whether the error is about regions: one that does not outlive another, one that is not general enough, or a
    /// placeholder.
    pub fn involves_regions(&self) -> bool
        ensures { IsTrue result ↔ InvolvesRegions self.now }
    {
        match self {
            TypeError::RegionsDoesNotOutlive(..)
            | TypeError::RegionsInsufficientlyPolymorphic(..)
            | TypeError::RegionsPlaceholderMismatch => true,
            _ => false,
        }
    }

    /// Whether a report of the two terms has to say the error too. It need not where the terms show it, as where one is
    /// a part of the other, or where there is nothing to say, as at `Mismatch`.
    pub fn must_include_note(&self) -> bool
        ensures { IsTrue result ↔ MustIncludeNote self.now }
    {
        match self {
            TypeError::CyclicTy(_)
            | TypeError::CyclicConst(_)
            | TypeError::SafetyMismatch(_)
            | TypeError::PolarityMismatch(_)
            | TypeError::Mismatch
            | TypeError::AbiMismatch(_)
            | TypeError::ArraySize(_)
            | TypeError::ArgumentSorts(..)
            | TypeError::Sorts(_)
            | TypeError::VariadicMismatch(_)
            | TypeError::TargetFeatureCast(_) => false,
            TypeError::Mutability
            | TypeError::ArgumentMutability(_)
            | TypeError::TupleSize(_)
            | TypeError::ArgCount
            | TypeError::RegionsDoesNotOutlive(..)
            | TypeError::RegionsInsufficientlyPolymorphic(..)
            | TypeError::RegionsPlaceholderMismatch
            | TypeError::Traits(_)
            | TypeError::ProjectionMismatched(_)
            | TypeError::ExistentialMismatch(_)
            | TypeError::ConstMismatch(_)
            | TypeError::IntrinsicCast
            | TypeError::ForceInlineCast => true,
        }
    }
}

// A derived copy matches over all errors, and takes its check as many seconds.
impl<X: Copy, D: Copy, N: Copy> Clone for TypeError<X, D, N> {
    ghost is_clone = { λ source copy. copy ≡ source };

    ghost is_infallible = { λ _. Unit {0} };

    fn clone(&self) -> Result<Self, AllocError> {
        Ok(*self)
    }
}

impl<X: Copy, D: Copy, N: Copy> Copy for TypeError<X, D, N> {}

/// A goal has no solution.
#[derive(Clone, Copy, PartialEq, Eq, Hash, Debug)]
pub struct NoSolution;

impl<X: Copy, D: Copy, N: Copy> From<TypeError<X, D, N>> for NoSolution {
    ghost from_gives = { λ _ e. e ≡ record {} };

    fn from(_why: TypeError<X, D, N>) -> NoSolution {
        NoSolution
    }
}

/// Why a relation stopped.
#[derive(PartialEq, Eq, Debug)]
pub enum RelateFault<X, D, N> {
    /// A growth was refused.
    Memory,
    /// No instantiation is left.
    Budget,
    /// The terms do not relate.
    Unrelated(TypeError<X, D, N>),
}

impl<X: Copy, D: Copy, N: Copy> Clone for RelateFault<X, D, N> {
    ghost is_clone = { λ source copy. copy ≡ source };

    ghost is_infallible = { λ _. Unit {0} };

    fn clone(&self) -> Result<Self, AllocError> {
        Ok(*self)
    }
}

impl<X: Copy, D: Copy, N: Copy> Copy for RelateFault<X, D, N> {}

/// Why a relation of an interner's terms stopped.
pub type RelateFaultOf<I> = RelateFault<<I as Keys>::Key, <I as Keys>::Id, <I as Keys>::Name>;

/// What a relation answers.
pub type RelateResult<I, T> = Result<T, RelateFaultOf<I>>;

impl<X, D, N> From<OutOfMemory> for RelateFault<X, D, N> {
    ghost use Rattle.relation_folds.specs.declared.error.RelateFault.TheVariants.{Memory};

    ghost from_gives = { λ _ e. e ≡ Memory };

    fn from(_refused: OutOfMemory) -> RelateFault<X, D, N> {
        RelateFault::Memory
    }
}

impl<X, D, N> From<AllocError> for RelateFault<X, D, N> {
    ghost use Rattle.relation_folds.specs.declared.error.RelateFault.TheVariants.{Memory};

    ghost from_gives = { λ _ e. e ≡ Memory };

    fn from(_refused: AllocError) -> RelateFault<X, D, N> {
        RelateFault::Memory
    }
}

impl<X, D, N, T: Drop> From<AllocFailed<T>> for RelateFault<X, D, N> {
    ghost use Rattle.relation_folds.specs.declared.error.RelateFault.TheVariants.{Memory};

    ghost from_gives = { λ _ e. e ≡ Memory };

    fn from(_refused: AllocFailed<T>) -> RelateFault<X, D, N> {
        RelateFault::Memory
    }
}

impl<X, D, N> From<TypeError<X, D, N>> for RelateFault<X, D, N> {
    ghost use Rattle.relation_folds.specs.declared.error.RelateFault.TheVariants.{Unrelated};

    ghost from_gives = { λ why e. e ≡ Unrelated why };

    fn from(why: TypeError<X, D, N>) -> RelateFault<X, D, N> {
        RelateFault::Unrelated(why)
    }
}
