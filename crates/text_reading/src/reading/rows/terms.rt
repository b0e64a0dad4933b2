//! How terms are written. Rows that begin alike stand together.
use crate::reading::error::Expected;
use crate::reading::shapes::Line::{By, To};
use crate::reading::shapes::Makes::{Lone, Node};
use crate::reading::shapes::Piece::{
    Further, Header, Leaf, List, Mark, Next, NextName, NextTwo, OneOf, Part,
};
use crate::reading::shapes::{
    A_NAME, A_NAMED, A_NUMBER, A_REGION, A_TERM, ITSELF, Line, Piece, Shape, Sort, row,
};
use crate::reading::signs::Sign::{
    Ampersand, Arrow, As, Assign, Bang, Bar, Const, Dyn, Equal, Error, Expr, Extern, Fn, For,
    Greater, Is, LeftBrace, LeftBracket, LeftParen, Less, Mut, Null, PathSep, RightBrace,
    RightBracket, RightParen, Semicolon, Star, Unsafe, UpTo,
};
use crate::reading::tree::Form;
use term_enums::{ExternAbi, FnHeader, Mutability, Safety};

// What function pointers and binders have.
const INPUTS: Piece = List(Sort::Term, Line::Inputs);

const AN_OUTPUT: Piece = Part(Sort::Output);

const UNBOUND: Piece = Part(Sort::NoBinder);

const BOUND_LIST: Piece = Part(Sort::Variables);

// What `*` is to be followed by.
const CONST_OR_MUT: Expected = Expected::Either(Const, Mut);

// What a function pointer is headed by where nothing else is read.
pub(in crate::reading) const PLAIN_HEADER: FnHeader = FnHeader {
    c_variadic: false,
    safety: Safety::Safe,
    abi: ExternAbi::Rust,
};

// A term, with a pattern or without.
pub(in crate::reading) static TERM: [Shape; 2] = [
    row!(Node(Form::Pat) => Part(Sort::Plain), Mark(Is), Part(Sort::Pattern)),
    row!(ITSELF => Part(Sort::Plain)),
];

// A term behind which no pattern is looked for.
pub(in crate::reading) static PLAIN: [Shape; 22] = [
    row!(Node(Form::Applied) => NextName(Less), A_NAME, Mark(Less), List(Sort::Term, To(Greater))),
    row!(ITSELF => A_NAME),
    row!(Node(Form::Ref(Mutability::Mut)) => Mark(Ampersand), A_REGION, Mark(Mut), A_TERM),
    row!(Node(Form::Ref(Mutability::Not)) => Mark(Ampersand), A_REGION, A_TERM),
    row!(Lone(Form::Tuple) => Mark(LeftParen), List(Sort::Term, To(RightParen))),
    row!(Node(Form::Array) => Mark(LeftBracket), A_TERM, Mark(Semicolon), A_TERM, Mark(RightBracket)),
    row!(Node(Form::Slice) => Mark(LeftBracket), A_TERM, Mark(RightBracket)),
    row!(Node(Form::Never) => Mark(Bang)),
    row!(Node(Form::RawPtr(Mutability::Not)) => Mark(Star), OneOf(Const, CONST_OR_MUT), A_TERM),
    row!(Node(Form::RawPtr(Mutability::Mut)) => Mark(Star), OneOf(Mut, CONST_OR_MUT), A_TERM),
    row!(Node(Form::Error) => Mark(LeftBrace), Mark(Error), Mark(RightBrace)),
    row!(Node(Form::Branch) => Mark(LeftBrace), List(Sort::Term, To(RightBrace))),
    row!(Node(Form::Expr) => Mark(Expr), A_NUMBER, Mark(LeftParen), List(Sort::Term, To(RightParen))),
    row!(Node(Form::Const) => Mark(Const), Part(Sort::Constant)),
    row!(Node(Form::Object) => Mark(Dyn), List(Sort::Bound, Line::Bounds), A_REGION),
    row!(Node(Form::Associated) => Mark(Less), A_TERM, Mark(As), A_NAMED, Mark(Greater), Mark(PathSep),
        A_NAMED),
    row!(Node(Form::FnPtr(PLAIN_HEADER)) => Mark(For), BOUND_LIST, Header, INPUTS, AN_OUTPUT),
    row!(Node(Form::UnsafeBinder) => NextTwo(Unsafe, Less), Mark(Unsafe), BOUND_LIST, A_TERM),
    row!(Node(Form::FnPtr(PLAIN_HEADER)) => Next(Unsafe), UNBOUND, Header, INPUTS, AN_OUTPUT),
    row!(Node(Form::FnPtr(PLAIN_HEADER)) => Next(Fn), UNBOUND, Header, INPUTS, AN_OUTPUT),
    row!(Node(Form::FnPtr(PLAIN_HEADER)) => Next(Extern), UNBOUND, Header, INPUTS, AN_OUTPUT),
    row!(ITSELF => Leaf(Expected::Term)),
];

// A constant behind `const`: what could not be told, or a placeholder.
pub(in crate::reading) static CONSTANT: [Shape; 2] = [
    row!(Node(Form::Error) => Mark(LeftBrace), Mark(Error), Mark(RightBrace)),
    row!(ITSELF => Leaf(Expected::Const)),
];

// The output of a function pointer, which is `()` where it is left out.
pub(in crate::reading) static OUTPUT: [Shape; 2] = [
    row!(ITSELF => Mark(Arrow), A_TERM),
    row!(Node(Form::Tuple) => ),
];

// A bound of a trait object.
pub(in crate::reading) static BOUND: [Shape; 2] = [
    row!(Node(Form::Projects) => Part(Sort::Binder), A_NAMED, Mark(PathSep), A_NAMED, Mark(Equal), A_TERM),
    row!(Node(Form::Implements) => Part(Sort::Binder), A_NAMED),
];

// A trait, or what one declares, and what is given to it.
pub(in crate::reading) static NAMED: [Shape; 1] = [
    row!(Node(Form::Named) => A_NAME, Further(Less), List(Sort::Argument, To(Greater))),
];

// An argument of a trait, or what a type or a constant of the trait is.
pub(in crate::reading) static ARGUMENT: [Shape; 2] = [
    row!(Node(Form::Assigned) => NextName(Assign), A_NAME, Mark(Assign), A_TERM),
    row!(ITSELF => A_TERM),
];

// A pattern: alternatives, or a lone one without a `|` before it.
pub(in crate::reading) static PATTERN: [Shape; 2] = [
    row!(Node(Form::Or) => Mark(Bar), List(Sort::Alternative, By(Bar))),
    row!(Lone(Form::Or) => List(Sort::Alternative, By(Bar))),
];

// One alternative of a pattern: what takes a level of its own, or the values between two constants.
pub(in crate::reading) static ALTERNATIVE: [Shape; 3] = [
    row!(ITSELF => Next(Bang), Part(Sort::Grouped)),
    row!(ITSELF => Next(LeftParen), Part(Sort::Grouped)),
    row!(Node(Form::Range) => Part(Sort::Plain), Mark(UpTo), Part(Sort::Plain)),
];

pub(in crate::reading) static GROUPED: [Shape; 2] = [
    row!(Node(Form::NotNull) => Mark(Bang), Mark(Null)),
    row!(ITSELF => Mark(LeftParen), Part(Sort::Pattern), Mark(RightParen)),
];

// A binder, or the one that is left out.
pub(in crate::reading) static BINDER: [Shape; 2] = [
    row!(ITSELF => Mark(For), BOUND_LIST),
    row!(Node(Form::Bound) => ),
];

pub(in crate::reading) static NO_BINDER: [Shape; 1] = [row!(Node(Form::Bound) => )];

// The variables of a binder. A constant may have `const` before it.
pub(in crate::reading) static VARIABLES: [Shape; 1] = [
    row!(Node(Form::Bound) => Mark(Less), List(Sort::Variable, To(Greater))),
];

pub(in crate::reading) static VARIABLE: [Shape; 2] = [
    row!(ITSELF => Mark(Const), Leaf(Expected::BoundConst)),
    row!(ITSELF => Leaf(Expected::Bound)),
];
