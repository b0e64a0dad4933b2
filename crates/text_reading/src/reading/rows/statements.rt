//! How statements are written.
use crate::reading::error::Expected;
use crate::reading::shapes::Line::{By, To};
use crate::reading::shapes::Makes::Node;
use crate::reading::shapes::Piece::{Further, Leaf, List, Mark, NextTwo, OneOf, Part, Unless};
use crate::reading::shapes::{A_NAME, A_NUMBER, A_TERM, ITSELF, Piece, Shape, Sort, row};
use crate::reading::signs::Sign::{
    AbiC, AbiSystem, Assign, Assume, Auto, Budget, Closure, Colon, Comma, Const, Coroutine, Extern,
    Fn, Greater, Impl, Implied, In, Inherent, LeftParen, Less, Let, Minus, Mode, Opaque, Open,
    Param, PathSep, Plus, Semicolon, Sized, Solver, Star, Struct, Super, Trait, Type, Variables,
    Where, Witness,
};
use crate::reading::tree::{Form, ItemSort, Setting, StatedKind};
use term_enums::Variance;

// The parameters of an item, behind their `<`.
const PARAMETERS: Piece = List(Sort::Declared, To(Greater));

// What `inherent` is to be followed by.
const TYPE_OR_CONST: Expected = Expected::Either(Type, Const);

// A statement, without the `;` behind it. A function pointer that begins one is asked about.
pub(in crate::reading) static STATEMENT: [Shape; 33] = [
    row!(ITSELF => NextTwo(Fn, LeftParen), Part(Sort::Question)),
    row!(ITSELF => NextTwo(Extern, AbiC), Part(Sort::Question)),
    row!(ITSELF => NextTwo(Extern, AbiSystem), Part(Sort::Question)),
    row!(Node(Form::IsSized) => Mark(Sized), A_NAME),
    row!(Node(Form::States(StatedKind::Super)) => Mark(Super), Part(Sort::Stating), Mark(Colon),
        List(Sort::Predicate, By(Comma))),
    row!(Node(Form::States(StatedKind::Implied)) => Mark(Implied), Part(Sort::Stating), Mark(Colon),
        List(Sort::Predicate, By(Comma))),
    row!(Node(Form::States(StatedKind::Const)) => Mark(Const), Mark(Super), Part(Sort::Stating), Mark(Colon),
        List(Sort::Predicate, By(Comma))),
    row!(Node(Form::Item(ItemSort::AssocConst)) => Mark(Const), A_NAME, Mark(PathSep), A_NAME, Further(Less),
        PARAMETERS),
    row!(Node(Form::Item(ItemSort::FreeConst)) => Mark(Const), A_NAME, Further(Less), PARAMETERS),
    row!(Node(Form::Item(ItemSort::Struct)) => Mark(Struct), A_NAME, Further(Less), PARAMETERS),
    row!(Node(Form::Item(ItemSort::Fn)) => Mark(Fn), A_NAME, Further(Less), PARAMETERS),
    row!(Node(Form::Item(ItemSort::Closure)) => Mark(Closure), A_NAME, Further(Less), PARAMETERS),
    row!(Node(Form::Item(ItemSort::CoroutineClosure)) => Mark(Coroutine), Mark(Closure), A_NAME,
        Further(Less), PARAMETERS),
    row!(Node(Form::Item(ItemSort::CoroutineWitness)) => Mark(Coroutine), Mark(Witness), A_NAME,
        Further(Less), PARAMETERS),
    row!(Node(Form::Item(ItemSort::Coroutine)) => Mark(Coroutine), A_NAME, Further(Less), PARAMETERS),
    row!(Node(Form::Item(ItemSort::Foreign)) => Mark(Extern), Mark(Type), A_NAME, Further(Less), PARAMETERS),
    row!(Node(Form::Item(ItemSort::Trait)) => Mark(Trait), A_NAME, Further(Less), PARAMETERS),
    row!(Node(Form::Item(ItemSort::AutoTrait)) => Mark(Auto), Mark(Trait), A_NAME, Further(Less), PARAMETERS),
    row!(Node(Form::Item(ItemSort::AssocTy)) => Mark(Type), A_NAME, Mark(PathSep), A_NAME, Further(Less),
        PARAMETERS),
    row!(Node(Form::Item(ItemSort::FreeTy)) => Mark(Type), A_NAME, Further(Less), PARAMETERS),
    row!(Node(Form::Item(ItemSort::Opaque)) => Mark(Opaque), A_NAME, Further(Less), PARAMETERS),
    row!(Node(Form::Item(ItemSort::InherentTy)) => Mark(Inherent), OneOf(Type, TYPE_OR_CONST), A_NAME,
        Further(Less), PARAMETERS),
    row!(Node(Form::Item(ItemSort::InherentConst)) => Mark(Inherent), OneOf(Const, TYPE_OR_CONST), A_NAME,
        Further(Less), PARAMETERS),
    row!(Node(Form::Parameters) => Mark(Param), List(Sort::Parameter, By(Comma))),
    row!(Node(Form::Assumes) => Mark(Assume), Unless(Semicolon, Sort::Predicate)),
    row!(Node(Form::Impl) => Mark(Impl), Part(Sort::Generics), Part(Sort::Given), Further(Where),
        List(Sort::Predicate, By(Comma))),
    row!(Node(Form::OpenImpl) => Mark(Open), Mark(Impl), Part(Sort::Generics), Part(Sort::Given), Further(Where),
        List(Sort::Predicate, By(Comma))),
    row!(Node(Form::Sets(Setting::Budget)) => Mark(Budget), A_NUMBER),
    row!(Node(Form::Sets(Setting::Solver)) => Mark(Solver), A_NAME),
    row!(Node(Form::Sets(Setting::Mode)) => Mark(Mode), A_NAME),
    row!(Node(Form::Variables) => Mark(Variables), List(Sort::Made, By(Comma)), Further(In), A_NUMBER),
    row!(Node(Form::Let) => Mark(Let), A_NAME, Mark(Assign), A_TERM),
    row!(ITSELF => Part(Sort::Question)),
];

// The trait whose predicates follow.
pub(in crate::reading) static STATING: [Shape; 1] = [row!(Node(Form::Stating) => A_NAME)];

// What an item declares, and how the item varies with it.
pub(in crate::reading) static DECLARED: [Shape; 10] = [
    row!(Node(Form::DeclaredConst(Variance::Covariant)) => Mark(Plus), Mark(Const), A_NAME),
    row!(Node(Form::Declared(Variance::Covariant)) => Mark(Plus), Leaf(Expected::Parameter)),
    row!(Node(Form::DeclaredConst(Variance::Contravariant)) => Mark(Minus), Mark(Const), A_NAME),
    row!(Node(Form::Declared(Variance::Contravariant)) => Mark(Minus), Leaf(Expected::Parameter)),
    row!(Node(Form::DeclaredConst(Variance::Bivariant)) => Mark(Star), Mark(Const), A_NAME),
    row!(Node(Form::Declared(Variance::Bivariant)) => Mark(Star), Leaf(Expected::Parameter)),
    row!(Node(Form::DeclaredConst(Variance::Invariant)) => Mark(Assign), Mark(Const), A_NAME),
    row!(Node(Form::Declared(Variance::Invariant)) => Mark(Assign), Leaf(Expected::Parameter)),
    row!(Node(Form::DeclaredConst(Variance::Invariant)) => Mark(Const), A_NAME),
    row!(Node(Form::Declared(Variance::Invariant)) => Leaf(Expected::Parameter)),
];

// A parameter, with its index if that is given.
pub(in crate::reading) static PARAMETER: [Shape; 2] = [
    row!(Node(Form::ConstParameter) => Mark(Const), A_NAME, Further(Assign), A_NUMBER),
    row!(Node(Form::Parameter) => Leaf(Expected::Parameter), Further(Assign), A_NUMBER),
];

// A variable that contexts have.
pub(in crate::reading) static MADE: [Shape; 1] = [row!(ITSELF => Leaf(Expected::Variable))];
