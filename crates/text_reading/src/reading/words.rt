//! The words of a text.
use crate::reading::signs::Sign;

/// A word that stands for something of its own: it becomes a leaf of the tree.
#[derive(Clone, Copy)]
pub enum Leaf {
    Name,
    /// A lifetime, with its `'`.
    Lifetime,
    /// A type that a binder binds, by the name that the binder gives it, and a constant.
    BoundTy,
    BoundConst,
    /// What a binder outside the term binds: a type, a constant or a region, by how many binders stand between. Its
    /// place in the binder's list stands from `behind` on.
    OuterTy { depth: usize, behind: usize },
    OuterConst { depth: usize, behind: usize },
    OuterRegion { depth: usize, behind: usize },
    /// A number. The type that it is of is named behind its digits, if at all.
    Number { value: u128, behind: usize },
    /// A type variable, by its number.
    TyVar(usize),
    /// An integer variable, a float variable, a constant variable, by their numbers.
    IntVar(usize),
    FloatVar(usize),
    ConstVar(usize),
    /// A region variable, by its number.
    RegionVar(usize),
    /// A placeholder of a universe. A name, or a `.` and a place in the binder's list, stands behind the number.
    Placeholder { universe: usize, behind: usize },
    /// The same of a region.
    RegionPlaceholder { universe: usize, behind: usize },
}

/// What a word is.
#[derive(Clone, Copy)]
pub enum WordKind {
    Leaf(Leaf),
    /// A mark, or a word of the language.
    Sign(Sign),
}

/// A word, and the bytes of the text that it takes: from `start` on, those before `end`.
#[derive(Clone, Copy)]
pub struct Word {
    pub kind: WordKind,
    pub start: usize,
    pub end: usize,
}
