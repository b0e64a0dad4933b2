//! How predicates are written.
use crate::reading::shapes::Line::To;
use crate::reading::shapes::Makes::Node;
use crate::reading::shapes::Piece::{List, Mark, NextName, NextPointer, Part};
use crate::reading::shapes::{
    A_NAME, A_NAMED, A_NUMBER, A_REGION, A_TERM, ITSELF, Piece, Shape, Sort, row,
};
use crate::reading::signs::Sign::{
    Bang, Colon, Const, Equal, LeftBracket, LeftParen, Limit, Pulls, RightBracket, RightParen,
};
use crate::reading::tree::{Claim, Form};
use term_enums::{BoundConstness, PredicatePolarity};

// The binder of a predicate. That of a function pointer with which it begins is none.
pub(in crate::reading) static PREDICATE_BINDER: [Shape; 2] = [
    row!(Node(Form::Bound) => NextPointer),
    row!(ITSELF => Part(Sort::Binder)),
];

// The binder that a predicate begins with.
const UNDER: Piece = Part(Sort::PredicateBinder);

// A predicate.
pub(in crate::reading) static PREDICATE: [Shape; 7] = [
    row!(Node(Form::Says) => UNDER, NextName(LeftParen), A_NAME, Mark(LeftParen),
        List(Sort::Term, To(RightParen))),
    row!(Node(Form::ComesTo) => UNDER, A_TERM, Mark(Equal), A_TERM),
    row!(Node(Form::OutlivesUnder) => UNDER, A_TERM, Mark(Colon), A_REGION),
    row!(Node(Form::Claims(Claim::Trait(PredicatePolarity::Negative))) => UNDER, A_TERM, Mark(Colon),
        Mark(Bang), A_NAMED),
    row!(Node(Form::Claims(Claim::HostEffect(BoundConstness::Const))) => UNDER, A_TERM, Mark(Colon),
        Mark(Const), A_NAMED),
    row!(Node(Form::Claims(Claim::HostEffect(BoundConstness::Maybe))) => UNDER, A_TERM, Mark(Colon),
        Mark(LeftBracket), Mark(Const), Mark(RightBracket), A_NAMED),
    row!(Node(Form::Claims(Claim::Trait(PredicatePolarity::Positive))) => UNDER, A_TERM, Mark(Colon),
        A_NAMED),
];

pub(in crate::reading) static LIMIT: [Shape; 1] = [
    row!(Node(Form::Limit) => Mark(Limit), A_NUMBER),
];

pub(in crate::reading) static PULLS: [Shape; 1] = [
    row!(Node(Form::Pulls) => Mark(Pulls), A_NUMBER),
];
