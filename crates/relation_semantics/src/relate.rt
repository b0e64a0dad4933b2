//! What relations in steps are said in.

pub use relation_terms::terms::StructurallyRelateAliases;
use relation_terms::terms::Variance;

/// What comes of two terms in one step of a relation.
#[derive(Clone, Copy)]
pub enum Step<T> {
    /// They are related, and this is the answer.
    Done(T),
    /// These two are related by their outermost forms and their parts, and what comes of that is the answer.
    Parts {
        a: T,
        b: T,
    },
    /// `x` and `y` are related at the variance, seen from the ambient one, and then `answer` is the answer. The terms
    /// are read as `a` and `b`.
    Again {
        a: T,
        b: T,
        x: T,
        y: T,
        variance: Variance,
        answer: T,
    },
}
