//! How impls and methods are written. What one is generic over stands as an item's parameters do, without a variance.
use crate::reading::error::Expected;
use crate::reading::shapes::Line::To;
use crate::reading::shapes::Makes::Node;
use crate::reading::shapes::Piece::{Leaf, List, Mark, Part};
use crate::reading::shapes::{A_NAME, A_NAMED, A_TERM, Shape, Sort, row};
use crate::reading::signs::Sign::{
    Assign, Const, FatArrow, For, Greater, Impl, LeftBrace, Less, RightBrace,
};
use crate::reading::tree::Form;
use term_enums::Variance;

// The header of an impl.
pub(in crate::reading) static IMPL_HEADER: [Shape; 1] = [
    row!(Node(Form::ImplHeader) => Mark(Impl), Part(Sort::Generics), A_NAMED, Mark(For), A_TERM),
];

// What an impl gives, as a predicate under no binder of its own.
pub(in crate::reading) static GIVEN: [Shape; 1] = [
    row!(Node(Form::Given) => Part(Sort::NoBinder), A_NAMED, Mark(For), A_TERM, Part(Sort::Gives)),
];

// What it says that its trait's types and constants are, or that list, left out.
pub(in crate::reading) static GIVES: [Shape; 2] = [
    row!(Node(Form::Gives) => Mark(LeftBrace), List(Sort::Assigned, To(RightBrace))),
    row!(Node(Form::Gives) => ),
];

pub(in crate::reading) static ASSIGNED: [Shape; 1] = [
    row!(Node(Form::Assigned) => A_NAME, Mark(Assign), A_TERM),
];

// What an impl is generic over, or the list that is left out.
pub(in crate::reading) static GENERICS: [Shape; 2] = [
    row!(Node(Form::Generics) => Mark(Less), List(Sort::GenericParam, To(Greater))),
    row!(Node(Form::Generics) => ),
];

pub(in crate::reading) static GENERIC_PARAM: [Shape; 2] = [
    row!(Node(Form::DeclaredConst(Variance::Invariant)) => Mark(Const), A_NAME),
    row!(Node(Form::Declared(Variance::Invariant)) => Leaf(Expected::Parameter)),
];

// A method, and the type that it is for.
pub(in crate::reading) static METHOD: [Shape; 1] = [
    row!(Node(Form::Method) => Mark(Impl), Part(Sort::Generics), A_TERM, Mark(FatArrow), A_NAME),
];
