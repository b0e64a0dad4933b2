//! How questions are written.
use crate::reading::error::Expected;
use crate::reading::shapes::Line::{By, To};
use crate::reading::shapes::Makes::Node;
use crate::reading::shapes::Piece::{
    Further, Leaf, List, Mark, Maybe, NextName, NextTwo, OneOf, Part, Unless,
};
use crate::reading::shapes::{A_NAME, A_NUMBER, A_TERM, ITSELF, Shape, Sort, row};
use crate::reading::signs::Sign::{
    After, Args, Assign, Assumptions, At, Binding, Colon, Comma, Components, Count, Elaborate,
    Equal, Escapes, Fold, Goals, Infer, Infers, Key, LeftBrace, LeftBracket, Limit, May, Methods,
    Of, One, Overlap, Prove, Regions, Repeat, RightBrace, RightBracket, Rigid, SelfType, Semicolon,
    Sized, Skip, Solve, Stop, StructurallyEqual, Subtype, Supertraits, Supertype, Then, Unify,
    Visit, Walk, Where, With,
};
use crate::reading::tree::{Counted, Form, KeyParams, Relation, SideParams};
use term_enums::Variance;

// What else may stand where one of two signs does.
const GOALS_OR_REGIONS: Expected = Expected::Either(Goals, Regions);

const RIGID_OR_INFER: Expected = Expected::Either(Rigid, Infer);

// A question.
pub(in crate::reading) static QUESTION: [Shape; 3] = [
    row!(Node(Form::Then) => Mark(Then), Part(Sort::Asked)),
    row!(Node(Form::Repeat) => Mark(Repeat), A_NUMBER, Part(Sort::Asked)),
    row!(ITSELF => Part(Sort::Asked)),
];

// What is asked.
pub(in crate::reading) static ASKED: [Shape; 33] = [
    row!(Node(Form::Visit) => Mark(Visit), A_TERM, Part(Sort::Skip), Part(Sort::Stop)),
    row!(Node(Form::Walk) => Mark(Walk), A_TERM, Further(Skip), Mark(After), List(Sort::Number, By(Comma))),
    row!(Node(Form::Components) => Mark(Components), A_TERM),
    row!(Node(Form::Assumptions) => Mark(Assumptions), List(Sort::Outlives, By(Comma))),
    row!(Node(Form::Fold) => Mark(Fold), A_TERM, Mark(With), List(Sort::Put, By(Comma))),
    row!(Node(Form::Escapes) => Mark(Escapes), A_TERM),
    row!(Node(Form::Infers) => Mark(Infers), A_TERM),
    row!(Node(Form::Rigid) => Mark(Rigid), A_TERM),
    row!(Node(Form::MayUnify(SideParams::InferInfer)) => Mark(May), Mark(Unify), Mark(LeftBracket),
        OneOf(Infer, RIGID_OR_INFER), Mark(Comma), Mark(Infer), Mark(RightBracket), A_TERM, Mark(Comma),
        A_TERM, Further(At), A_NUMBER),
    row!(Node(Form::MayUnify(SideParams::RigidInfer)) => Mark(May), Mark(Unify), Mark(LeftBracket),
        OneOf(Rigid, RIGID_OR_INFER), Mark(Comma), OneOf(Infer, RIGID_OR_INFER), Mark(RightBracket), A_TERM,
        Mark(Comma), A_TERM, Further(At), A_NUMBER),
    row!(Node(Form::MayUnify(SideParams::RigidRigid)) => Mark(May), Mark(Unify), Mark(LeftBracket),
        OneOf(Rigid, RIGID_OR_INFER), Mark(Comma), OneOf(Rigid, RIGID_OR_INFER), Mark(RightBracket), A_TERM,
        Mark(Comma), A_TERM, Further(At), A_NUMBER),
    row!(Node(Form::ArgsMayUnify(SideParams::InferInfer)) => Mark(Args), Mark(May), Mark(Unify),
        Mark(LeftBracket), OneOf(Infer, RIGID_OR_INFER), Mark(Comma), Mark(Infer), Mark(RightBracket),
        Part(Sort::Arguments), Mark(Comma), Part(Sort::Arguments)),
    row!(Node(Form::ArgsMayUnify(SideParams::RigidInfer)) => Mark(Args), Mark(May), Mark(Unify),
        Mark(LeftBracket), OneOf(Rigid, RIGID_OR_INFER), Mark(Comma), OneOf(Infer, RIGID_OR_INFER),
        Mark(RightBracket), Part(Sort::Arguments), Mark(Comma), Part(Sort::Arguments)),
    row!(Node(Form::ArgsMayUnify(SideParams::RigidRigid)) => Mark(Args), Mark(May), Mark(Unify),
        Mark(LeftBracket), OneOf(Rigid, RIGID_OR_INFER), Mark(Comma), OneOf(Rigid, RIGID_OR_INFER),
        Mark(RightBracket), Part(Sort::Arguments), Mark(Comma), Part(Sort::Arguments)),
    row!(Node(Form::ArgsEqual) => Mark(Args), Part(Sort::Arguments), Mark(Equal), Part(Sort::Arguments)),
    row!(Node(Form::Key(KeyParams::Rigid)) => Mark(Key), Mark(Rigid), A_TERM),
    row!(Node(Form::Key(KeyParams::Infer)) => Mark(Key), A_TERM),
    row!(Node(Form::Elaborate { only_self: true, sized: true }) => Mark(Elaborate),
        NextTwo(LeftBracket, SelfType), Mark(LeftBracket), Mark(SelfType), Mark(Comma), Mark(Sized),
        Mark(RightBracket), Unless(Limit, Sort::Predicate), Maybe(Sort::Limit), Maybe(Sort::Pulls)),
    row!(Node(Form::Elaborate { only_self: true, sized: false }) => Mark(Elaborate),
        NextTwo(LeftBracket, SelfType), Mark(LeftBracket), Mark(SelfType), Mark(RightBracket),
        Unless(Limit, Sort::Predicate), Maybe(Sort::Limit), Maybe(Sort::Pulls)),
    row!(Node(Form::Elaborate { only_self: false, sized: true }) => Mark(Elaborate),
        NextTwo(LeftBracket, Sized), Mark(LeftBracket), Mark(Sized), Mark(RightBracket),
        Unless(Limit, Sort::Predicate), Maybe(Sort::Limit), Maybe(Sort::Pulls)),
    row!(Node(Form::Elaborate { only_self: false, sized: false }) => Mark(Elaborate),
        Unless(Limit, Sort::Predicate), Maybe(Sort::Limit), Maybe(Sort::Pulls)),
    row!(Node(Form::SupertraitIds) => Mark(Supertraits), NextName(Semicolon), A_NAME),
    row!(Node(Form::Supertraits) => Mark(Supertraits), Part(Sort::Predicate), Maybe(Sort::Limit)),
    row!(Node(Form::Count(Counted::Goals)) => Mark(Count), OneOf(Goals, GOALS_OR_REGIONS), Part(Sort::Pair)),
    row!(Node(Form::Count(Counted::Regions)) => Mark(Count), OneOf(Regions, GOALS_OR_REGIONS),
        Part(Sort::Pair)),
    row!(Node(Form::One) => Mark(One), Leaf(Expected::AnyVariable), Mark(Comma), Leaf(Expected::AnyVariable)),
    row!(Node(Form::Binding) => Mark(Binding), Leaf(Expected::AnyVariable)),
    row!(Node(Form::ImplsOverlap) => Mark(Overlap), A_NUMBER, Mark(Comma), A_NUMBER, Further(At), A_NUMBER),
    row!(Node(Form::Overlap) => Mark(Overlap), Part(Sort::ImplHeader), Mark(Comma), Part(Sort::ImplHeader)),
    row!(Node(Form::Methods) => Mark(Methods), Mark(LeftBrace), List(Sort::Method, To(RightBrace)), Mark(Of),
        A_TERM),
    row!(Node(Form::Solve) => Mark(Solve), Further(Where), List(Sort::Outlives, By(Comma))),
    row!(Node(Form::Prove) => Mark(Prove), Part(Sort::Predicate), Further(At), A_NUMBER),
    row!(ITSELF => Part(Sort::Pair)),
];

// Two terms, and how they are related.
pub(in crate::reading) static PAIR: [Shape; 4] = [
    row!(Node(Form::Question(Relation::At(Variance::Covariant))) => A_TERM,
        OneOf(Subtype, Expected::Relation), A_TERM),
    row!(Node(Form::Question(Relation::At(Variance::Contravariant))) => A_TERM,
        OneOf(Supertype, Expected::Relation), A_TERM),
    row!(Node(Form::Question(Relation::At(Variance::Invariant))) => A_TERM, OneOf(Equal, Expected::Relation),
        A_TERM),
    row!(Node(Form::Question(Relation::Structurally)) => A_TERM, OneOf(StructurallyEqual, Expected::Relation),
        A_TERM),
];

// The terms at which a visitor skips, and those at which it stops.
pub(in crate::reading) static SKIP: [Shape; 1] = [
    row!(Node(Form::Terms) => Further(Skip), List(Sort::Term, By(Comma))),
];

pub(in crate::reading) static STOP: [Shape; 1] = [
    row!(Node(Form::Terms) => Further(Stop), List(Sort::Term, By(Comma))),
];

// A number.
pub(in crate::reading) static NUMBER: [Shape; 1] = [row!(ITSELF => A_NUMBER)];

// A term, and the region that it outlives.
pub(in crate::reading) static OUTLIVES: [Shape; 1] = [
    row!(Node(Form::Outlives) => A_TERM, Mark(Colon), A_TERM),
];

// A term, and the one that is put for it.
pub(in crate::reading) static PUT: [Shape; 1] = [
    row!(Node(Form::Put) => A_TERM, Mark(Assign), A_TERM),
];

// A list of arguments.
pub(in crate::reading) static ARGUMENTS: [Shape; 1] = [
    row!(Node(Form::Terms) => Mark(LeftBracket), List(Sort::Term, To(RightBracket))),
];
