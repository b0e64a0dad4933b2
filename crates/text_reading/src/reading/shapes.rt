//! The forms of the language are rows: what a form makes, and the pieces that it is written as.
use crate::reading::error::Expected;
use crate::reading::signs::Sign;
use crate::reading::tree::Form;

/// What a form is a form of. Each has rows of its own.
#[derive(Clone, Copy, PartialEq)]
pub enum Sort {
    Statement,
    /// The trait whose predicates follow.
    Stating,
    /// What an item declares, and what `param` does.
    Declared,
    Parameter,
    Question,
    /// What is asked, behind `then` or not.
    Asked,
    /// Two terms, and how they are related.
    Pair,
    /// Where a visitor skips, and where it stops.
    Skip,
    Stop,
    Outlives,
    Put,
    Arguments,
    Number,
    /// A variable that contexts are said to have.
    Made,
    Limit,
    Pulls,
    Predicate,
    /// The header of an impl, what one gives, what it says that its trait's types and constants are, one of these, the
    /// list of what it is generic over, and what stands in that.
    ImplHeader,
    Given,
    Gives,
    Assigned,
    Generics,
    GenericParam,
    /// A method of a table.
    Method,
    /// The binder of a predicate, that of a trait object's bound, and the one that is always left out.
    PredicateBinder,
    Binder,
    NoBinder,
    /// The list of a binder, and what stands in it.
    Variables,
    Variable,
    Term,
    /// A term behind which no pattern is looked for.
    Plain,
    /// What stands behind `const`.
    Constant,
    /// What a function pointer puts out.
    Output,
    /// What a trait object implements.
    Bound,
    /// A trait, or what it declares, with what is given to it.
    Named,
    Argument,
    Pattern,
    Alternative,
    /// An alternative that takes a level.
    Grouped,
}

/// How the parts of a list stand.
#[derive(Clone, Copy, PartialEq)]
pub enum Line {
    /// With commas between, up to a sign; a comma may stand before it.
    To(Sign),
    /// The same up to `)`, before which `..` may stand in place of a part.
    Inputs,
    /// One part at least, with that sign between.
    By(Sign),
    /// Each with a `+` behind it, up to a region.
    Bounds,
}

/// A piece of what a form is written as.
#[derive(Clone, Copy, PartialEq)]
pub enum Piece {
    Mark(Sign),
    /// A sign beside which others may stand there, as is told where none does.
    OneOf(Sign, Expected),
    /// A word that stands for something of its own.
    Leaf(Expected),
    Part(Sort),
    /// A part that may be left out.
    Maybe(Sort),
    List(Sort, Line),
    /// One part at least, with commas between, or none where that sign is next.
    Unless(Sign, Sort),
    /// A sign behind which the form goes on. Where it does not stand, the form ends.
    Further(Sign),
    /// What stands before the inputs of a function pointer, behind its binder.
    Header,
    /// What has to be next, and is read by the pieces behind it: a sign, two signs, a name and a sign, or the binder of a
    /// function pointer.
    Next(Sign),
    NextTwo(Sign, Sign),
    NextName(Sign),
    NextPointer,
}

/// What is made of what was read.
#[derive(Clone, Copy)]
pub enum Makes {
    Node(Form),
    /// A node, unless there is one part, with no comma behind it: then that part.
    Lone(Form),
}

/// A form: what it makes, and how it is written.
pub type Shape = (Makes, &'static [Piece]);

// A row of the table: what a form makes, and the pieces that it is written as.
macro_rules! row {
    ($makes:expr => $($piece:expr),*) => {
        ($makes, &[$($piece),*])
    };
}

pub(super) use row;

// The node over what is always one part, and so is never made.
pub(super) const ITSELF: Makes = Makes::Lone(Form::Terms);

// Pieces that many forms have.
pub(super) const A_TERM: Piece = Piece::Part(Sort::Term);

pub(super) const A_NAME: Piece = Piece::Leaf(Expected::Name);

pub(super) const A_NUMBER: Piece = Piece::Leaf(Expected::Number);

pub(super) const A_REGION: Piece = Piece::Leaf(Expected::Region);

pub(super) const A_NAMED: Piece = Piece::Part(Sort::Named);
