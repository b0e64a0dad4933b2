//! The small types that terms and texts are made with: enums, headers of functions, the error of a refused growth; and
//! how keys are hashed.
#![tactic(auto)]

ghost use Rattle.std.specs.Prelude.{◌≡◌, Some};
ghost use Rattle.term_enums.specs.Variances.{xform};
ghost use Rattle.term_enums.specs.Polarities.{flipped, satisfied};
ghost use Rattle.term_enums.specs.Words.{impl_polarity_mark, impl_polarity_text, polarity_text, constness_text};

pub mod hashing;
pub mod laws;
mod memory;

pub use memory::OutOfMemory;
use std::fmt;

/// How a part varies with the whole.
#[derive(Clone, Copy, PartialEq, Eq, Hash, Debug)]
pub enum Variance {
    /// `A<T>` is a subtype of `A<U>` where `T` is one of `U`.
    Covariant,
    /// `A<T>` is a subtype of `A<U>` only where `T` equals `U`.
    Invariant,
    /// `A<T>` is a subtype of `A<U>` where `U` is one of `T`.
    Contravariant,
    /// `A<T>` is a subtype of `A<U>` for all `T` and `U`.
    Bivariant,
}

impl Variance {
    /// The variance of a part where the part varies by `v` with what itself stands at this variance.
    ///
    /// The function argument of a contravariant place is covariant again; nothing inside an invariant or a bivariant
    /// place is anything else.
    pub fn xform(self, v: Variance) -> Variance
        ensures { result ≡ xform self v }
    {
        // (most parts vary as the whole)
        if let Variance::Covariant = v {
            return self;
        }
        match self {
            Variance::Covariant => v,
            Variance::Contravariant => match v {
                Variance::Covariant => Variance::Contravariant,
                Variance::Contravariant => Variance::Covariant,
                Variance::Invariant | Variance::Bivariant => v,
            },
            Variance::Invariant | Variance::Bivariant => self,
        }
    }
}

/// Whether what a pointer leads to may be changed.
#[derive(Clone, Copy, PartialEq, Eq, Hash)]
pub enum Mutability {
    Not,
    Mut,
}

/// The signed integer types.
#[derive(Clone, Copy, PartialEq, Eq, Hash)]
pub enum IntTy {
    Isize,
    I8,
    I16,
    I32,
    I64,
    I128,
}

/// The unsigned integer types.
#[derive(Clone, Copy, PartialEq, Eq, Hash)]
pub enum UintTy {
    Usize,
    U8,
    U16,
    U32,
    U64,
    U128,
}

/// The float types. They are names only: no float is computed.
#[derive(Clone, Copy, PartialEq, Eq, Hash)]
pub enum FloatTy {
    F16,
    F32,
    F64,
    F128,
}

/// Whether a function may be called from safe code.
#[derive(Clone, Copy, PartialEq, Eq, Hash, Debug)]
pub enum Safety {
    Unsafe,
    Safe,
}

/// The convention by which a function is called.
#[derive(Clone, Copy, PartialEq, Eq, Hash, Debug)]
pub enum ExternAbi {
    Rust,
    C,
    System,
}

/// What a signature says besides its types.
#[derive(Clone, Copy, PartialEq, Eq, Hash)]
pub struct FnHeader {
    /// Whether more arguments may follow, as in C.
    pub c_variadic: bool,
    pub safety: Safety,
    pub abi: ExternAbi,
}

/// What an impl says of its trait, in this order: that it is implemented, that it is not, or neither, so that the one
/// or the other may be said later.
#[derive(Clone, Copy, PartialEq, Eq, PartialOrd, Ord, Hash, Debug)]
pub enum ImplPolarity {
    Positive,
    Negative,
    Reservation,
}

impl ImplPolarity {
    /// What stands before the trait in an impl of this polarity: `!` where it is negative, and nothing else.
    pub fn as_str(&self) -> &'static str
        ensures { result.now ≡ impl_polarity_mark self.now }
    {
        match self {
            ImplPolarity::Positive => "",
            ImplPolarity::Negative => "!",
            ImplPolarity::Reservation => "",
        }
    }
}

impl fmt::Display for ImplPolarity {
    ghost output = { λ polarity. Some (impl_polarity_text polarity) };

    fn fmt<W: fmt::Write>(&self, f: &mut fmt::Formatter<W>) -> fmt::Result {
        f.write_str(match self {
            ImplPolarity::Positive => "positive",
            ImplPolarity::Negative => "negative",
            ImplPolarity::Reservation => "reservation",
        })
    }
}

/// Whether a trait predicate says that the trait is implemented, or that it is not, in this order.
#[derive(Clone, Copy, PartialEq, Eq, PartialOrd, Ord, Hash, Debug)]
pub enum PredicatePolarity {
    Positive,
    Negative,
}

impl PredicatePolarity {
    /// The other polarity.
    pub fn flip(&self) -> PredicatePolarity
        ensures { result ≡ flipped self.now }
    {
        match self {
            PredicatePolarity::Positive => PredicatePolarity::Negative,
            PredicatePolarity::Negative => PredicatePolarity::Positive,
        }
    }
}

impl fmt::Display for PredicatePolarity {
    ghost output = { λ polarity. Some (polarity_text polarity) };

    fn fmt<W: fmt::Write>(&self, f: &mut fmt::Formatter<W>) -> fmt::Result {
        f.write_str(match self {
            PredicatePolarity::Positive => "positive",
            PredicatePolarity::Negative => "negative",
        })
    }
}

/// Whether a bound holds in const contexts always, or where its own context is const.
#[derive(Clone, Copy, PartialEq, Eq, Hash)]
pub enum BoundConstness {
    Const,
    Maybe,
}

impl BoundConstness {
    /// Whether a bound of this constness is enough where one of `goal` is asked: it is, unless this one holds only
    /// where its own context is const and `goal` asks for const contexts always.
    pub fn satisfies(&self, goal: &BoundConstness) -> bool
        ensures { result ≡ satisfied self.now goal.now }
    {
        match self {
            BoundConstness::Const => true,
            BoundConstness::Maybe => match goal {
                BoundConstness::Maybe => true,
                BoundConstness::Const => false,
            },
        }
    }

    /// What stands before the trait in a bound of this constness: `const` or `[const]`.
    pub fn as_str(&self) -> &'static str
        ensures { result.now ≡ constness_text self.now }
    {
        match self {
            BoundConstness::Const => "const",
            BoundConstness::Maybe => "[const]",
        }
    }
}

impl fmt::Display for BoundConstness {
    ghost output = { λ constness. Some (constness_text constness) };

    fn fmt<W: fmt::Write>(&self, f: &mut fmt::Formatter<W>) -> fmt::Result {
        f.write_str(self.as_str())
    }
}

/// What an alias goal asks: that both sides are equal, or that the first is a subtype of the second.
#[derive(Clone, Copy, PartialEq, Eq, Hash)]
pub enum AliasRelationDirection {
    Equate,
    Subtype,
}

/// A trait that the language itself knows, as far as what stands here asks for it.
#[derive(Clone, Copy, PartialEq, Eq, Hash)]
pub enum SolverTraitLangItem {
    Sized,
}

/// Whether aliases are related by their items and arguments, or by a goal that is left to the solver.
#[derive(Clone, Copy, PartialEq, Eq)]
pub enum StructurallyRelateAliases {
    Yes,
    No,
}

/// Whether a constraint on regions is seen where placeholders are checked for leaks. No answer of relating looks at it.
#[derive(Clone, Copy, PartialEq, Eq)]
pub enum VisibleForLeakCheck {
    Yes,
    No,
}
