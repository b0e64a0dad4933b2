//! What a text says: its items, its terms and its questions.
ghost use Rattle.std.specs.Prelude.{◌≡◌};

use crate::reading::{Claim, Counted, ItemSort, KeyParams, Relation, SideParams, StatedKind};
use std::alloc::{AllocError, Global};
use term_enums::{FloatTy, FnHeader, IntTy, Mutability, UintTy, Variance};

/// What a term stands for.
#[derive(Clone, Copy, PartialEq, Eq, Debug)]
pub enum Sort {
    Region,
    Type,
    Const,
    /// A pattern, which stands in the types that it is of and nowhere else.
    Pattern,
    /// What a trait object implements, which stands in it and nowhere else.
    Predicate,
}

/// What a parameter that an item declares is given.
#[derive(Clone, Copy, PartialEq, Eq, Debug)]
pub enum ParamSort {
    Region,
    Type,
    Const,
}

/// A parameter that an item declares: what it is given, and how the item varies with it.
#[derive(Clone, Copy, PartialEq, Eq)]
pub struct Declared<'a> {
    pub sort: ParamSort,
    pub variance: Variance,
    pub text: &'a str,
}

/// An item: what it is, its name, and the parameters that it declares.
#[derive(Drop)]
pub struct Item<'a> {
    pub sort: ItemSort,
    pub text: &'a str,
    /// The trait that declares it, by its number, if a trait does.
    pub of: Option<usize>,
    /// A trait's own parameters stand without the type that implements it, and before those of what it declares.
    pub declared: Vec<Declared<'a>>,
}

/// Where the numbers of a term's parts stand in the list of parts: from `first` on, those before `behind`.
#[derive(Clone, Copy, PartialEq, Eq)]
pub struct Parts {
    pub first: usize,
    pub behind: usize,
}

impl Parts {
    // The range from one place to another.
    pub(super) fn new(first: usize, behind: usize) -> Parts {
        Parts { first, behind }
    }
}

/// A term over the numbers of other terms, which stand before it. Names and items are numbers too.
pub enum Term {
    Bool,
    Char,
    Str,
    Never,
    Int(IntTy),
    Uint(UintTy),
    Float(FloatTy),
    /// An item over its arguments.
    Item(ItemSort, usize, Parts),
    Slice(usize),
    /// An array: its element's type and its length.
    Array(usize, usize),
    Tuple(Parts),
    RawPtr(usize, Mutability),
    /// A reference: its region, and the type that it leads to.
    Ref(usize, usize, Mutability),
    /// A type that is a parameter: its index and its name.
    TyParam(u32, usize),
    /// A type that stands for a bound one: its universe, its place in the binder's list, and its name.
    TyPlaceholder(usize, usize, usize),
    TyVar(usize),
    IntVar(usize),
    FloatVar(usize),
    /// A type that could not be told.
    TyError,
    /// The values of a type that a pattern admits.
    Pat(usize, usize),
    Static,
    /// A region that is a parameter: its index and its name.
    RegionParam(u32, usize),
    RegionVar(usize),
    /// A region that stands for a bound one: its universe, its place in the binder's list, and its name.
    RegionPlaceholder(usize, usize, usize),
    /// A constant that is a parameter: its index and its name.
    ConstParam(u32, usize),
    /// A constant that stands for a bound one: its universe, its place in the binder's list, and its name.
    ConstPlaceholder(usize, usize, usize),
    ConstVar(usize),
    /// A constant that could not be told.
    ConstError,
    /// A number: its type, its bits, and how many bytes they take.
    Number(usize, u128, u8),
    /// A value that is made of constants, and its type.
    Branch(usize, Parts),
    /// An expression: the number of its operation, and its arguments.
    Expr(u32, Parts),
    /// The pattern of the values between two constants.
    Range(usize, usize),
    /// The pattern of what one of some patterns admits.
    Or(Parts),
    /// The pattern of all but null.
    NotNull,
    /// A type that a binder binds: how many binders stand between, its place in the binder's list, and its name.
    TyBound(u64, usize, usize),
    /// A region that a binder binds.
    RegionBound(u64, usize, usize),
    /// A constant that a binder binds.
    ConstBound(u64, usize, usize),
    /// A function pointer: its header, what its binder binds, each as it stands right under the binder, and its inputs
    /// and its output.
    FnPtr(FnHeader, Parts, Parts),
    /// A type under a binder: what the binder binds, and the type.
    UnsafeBinder(Parts, usize),
    /// A trait object: what it implements, and its region.
    Object(Parts, usize),
    /// That a trait is implemented, under a binder: what the binder binds, the item, and its arguments.
    Implements(Parts, usize, Parts),
    /// What a trait's type or constant is, under a binder: what the binder binds, the item, its arguments, and the
    /// term.
    Projects(Parts, usize, Parts, usize),
    /// That an auto trait is implemented, under a binder: what the binder binds, and the item.
    IsAuto(Parts, usize),
}

// A derived copy matches over all forms, and takes its check as many seconds.
impl Clone for Term {
    ghost is_clone = { λ source copy. copy ≡ source };

    ghost is_infallible = { λ _. Unit {0} };

    fn clone(&self) -> Result<Self, AllocError> {
        Ok(*self)
    }
}

impl Copy for Term {}

/// What a predicate says of terms, by their numbers.
#[derive(Clone, Copy)]
pub enum Says {
    /// What is claimed of a trait, over its arguments, the type that implements it first.
    Claims(Claim, usize, Parts),
    RegionOutlives(usize, usize),
    TypeOutlives(usize, usize),
    /// What a trait's type or constant comes to: the item, its arguments, and the term.
    ComesTo(ItemSort, usize, Parts, usize),
    WellFormed(usize),
    ConstEvaluatable(usize),
    /// A constant, and the type that it is of.
    ConstArgHasType(usize, usize),
    /// The name of the feature.
    UnstableFeature(usize),
}

/// A predicate: what its binder binds, each as it stands right under the binder, and what it says.
#[derive(Clone, Copy)]
pub struct Clause {
    pub variables: Parts,
    pub says: Says,
}

/// What a trait states, by its number: the predicates of a range of the program's list.
#[derive(Clone, Copy)]
pub struct Stated {
    pub of: usize,
    pub kind: StatedKind,
    pub clauses: Parts,
}

/// A rule of an impl: what it is generic over, each as it stands right under its binder, and the predicates of a range
/// of the program's list: what it gives, and then what it asks for.
#[derive(Clone, Copy)]
pub struct Impl {
    /// The impl's number among the program's, from 1 on: each of its rules has it.
    pub number: usize,
    /// Whether there may be such an impl, and it isn't said that there is.
    pub open: bool,
    pub variables: Parts,
    pub clauses: Parts,
}

/// A method of a table: what the type is generic over which it is for, each as it stands right under its binder, the
/// type, and the number of the method's name.
#[derive(Clone, Copy)]
pub struct Method {
    pub variables: Parts,
    pub ty: usize,
    pub name: usize,
}

/// One thing that is put for another.
#[derive(Clone, Copy, PartialEq, Eq)]
pub struct Put<T> {
    pub from: T,
    pub to: T,
}

/// A kind of variables.
#[derive(Clone, Copy, PartialEq, Eq, Debug)]
pub enum VariableKind {
    Ty,
    Int,
    Float,
    Const,
    Region,
}

/// A variable, by its number among those of its kind.
#[derive(Clone, Copy, PartialEq, Eq, Debug)]
pub struct VariableId {
    pub kind: VariableKind,
    pub number: usize,
}

/// What is asked about terms, by their numbers.
#[derive(Clone, Copy)]
pub enum QuestionKind {
    /// Whether a type is related with another.
    Relate {
        lhs: usize,
        relation: Relation,
        rhs: usize,
    },
    /// Which terms a visitor of a term is asked about that skips some terms, and stops at others.
    Visit {
        term: usize,
        skip: Parts,
        stop: Parts,
    },
    /// What a walk of a term yields that skips what is under an argument after so many pulls, those of a range of the
    /// program's list.
    Walk {
        term: usize,
        skips: Parts,
    },
    /// What has to outlive a region for a type to outlive it.
    Components(usize),
    /// What follows from terms that are assumed to outlive regions, each the one at its place in its list.
    Assumptions {
        terms: Parts,
        regions: Parts,
    },
    /// What comes of a term where others are put for its parts, those of a range of the program's list.
    Fold {
        term: usize,
        puts: Parts,
    },
    /// Whether a variable stands in a term that a binder outside it binds.
    Escapes(usize),
    /// Whether a variable that is no region stands in a term.
    Infers(usize),
    /// Whether a type's outermost form stays what it is.
    Rigid(usize),
    /// Whether two types may unify, as far as a depth goes if one is given.
    MayUnify {
        params: SideParams,
        lhs: usize,
        rhs: usize,
        depth: Option<usize>,
    },
    /// Whether two lists of arguments may unify.
    ArgsMayUnify {
        params: SideParams,
        lhs: Parts,
        rhs: Parts,
    },
    /// Whether two lists of arguments are related at invariance.
    RelateArgs {
        lhs: Parts,
        rhs: Parts,
    },
    /// The key of a type.
    Key {
        params: KeyParams,
        ty: usize,
    },
    /// What follows from the predicates of a range of the program's list, if a limit was said, of up to so many
    /// different ones, and as often as was said.
    Elaborate {
        clauses: Parts,
        only_self: bool,
        sized: bool,
        limit: Option<usize>,
        pulls: Option<usize>,
    },
    /// The supertraits of what a predicate claims.
    Supertraits {
        clause: usize,
        limit: Option<usize>,
    },
    /// The traits that a trait, by its number, leads to.
    SupertraitIds(usize),
    /// Whether the headers of two impls overlap, each the predicate of that number that the type implements the trait.
    Overlap {
        left: usize,
        right: usize,
    },
    /// Whether two impls overlap, with what each asks for, within a depth: each the first rule of an impl, by its place
    /// among so many rules of impls by which that is told, and by what is assumed.
    ImplsOverlap {
        left: usize,
        right: usize,
        impls: usize,
        depth: usize,
    },
    /// Which methods may be for a type, of those of a range of the program's list.
    Methods {
        methods: Parts,
        of: usize,
    },
    /// Whether what was recorded of regions can hold where each region of the first list outlives the one at its place
    /// in the second.
    Solve {
        longer: Parts,
        shorter: Parts,
    },
    /// Whether the predicate of that number follows, within a depth, from so many of the impls' rules and from what
    /// is assumed.
    Prove {
        goal: usize,
        impls: usize,
        depth: usize,
    },
    /// Whether two variables are one.
    One(VariableId, VariableId),
    /// What a variable is bound to.
    Binding(VariableId),
}

/// In which typing mode a context is. No opaque types are defined in it.
#[derive(Clone, Copy, PartialEq, Eq, Debug)]
pub enum Mode {
    Coherence,
    Analysis,
    Borrowck,
    PostBorrowckAnalysis,
    PostAnalysis,
}

/// For which trait solver a context is made, the next one or the old one, and in which typing mode.
#[derive(Clone, Copy, PartialEq, Eq, Debug)]
pub struct Setup {
    pub next_solver: bool,
    pub mode: Mode,
}

/// A question, and how it is asked.
#[derive(Clone, Copy)]
pub struct Question {
    pub kind: QuestionKind,
    /// What is counted of what a relation leaves, if that is asked and not the answer itself.
    pub counts: Option<Counted>,
    /// Whether it is asked in the context that the question before left.
    pub then: bool,
    /// How many times it is asked.
    pub repeat: usize,
    /// How a new context of it is made.
    pub setup: Setup,
    /// How many instantiations its context may make, if that was said.
    pub budget: Option<usize>,
    /// The predicates that are assumed, its environment: those of a range of the program's list.
    pub assumed: Parts,
    /// How many statements of the program say which variables its context has, beside those that it names.
    pub variables: usize,
}

/// Variables that contexts have: up to so many of each kind, those in its universe that stand in none before.
#[derive(Clone, Copy, PartialEq, Eq)]
pub struct Variables {
    pub universe: usize,
    pub types: usize,
    pub consts: usize,
    pub regions: usize,
}

/// What a text says.
#[derive(Drop)]
pub struct Program<'a> {
    pub items: Vec<Item<'a>>,
    /// The names of parameters and of what stands for bound variables.
    pub names: Vec<&'a str>,
    pub terms: Vec<Term>,
    /// The numbers of the terms' parts, and of the terms in a question's lists.
    pub parts: Vec<usize>,
    /// The numbers of the terms that are put for others.
    pub puts: Vec<Put<usize>>,
    /// After how many pulls walks skip.
    pub skips: Vec<usize>,
    /// The variables that contexts have, in the order of their universes.
    pub variables: Vec<Variables>,
    /// The predicates that traits state, those that are assumed, and those of questions and of impls.
    pub clauses: Vec<Clause>,
    /// The methods of tables.
    pub methods: Vec<Method>,
    /// The rules of the impls that goals may follow from.
    pub impls: Vec<Impl>,
    pub stated: Vec<Stated>,
    /// The traits, by their numbers, that the language knows as `Sized`.
    pub sized: Vec<usize>,
    pub questions: Vec<Question>,
}

impl<'a> Program<'a> {
    // Nothing is said.
    pub(super) fn new(alloc: Global) -> Program<'a> {
        Program {
            items: Vec::new(alloc),
            names: Vec::new(alloc),
            terms: Vec::new(alloc),
            parts: Vec::new(alloc),
            puts: Vec::new(alloc),
            skips: Vec::new(alloc),
            variables: Vec::new(alloc),
            clauses: Vec::new(alloc),
            methods: Vec::new(alloc),
            impls: Vec::new(alloc),
            stated: Vec::new(alloc),
            sized: Vec::new(alloc),
            questions: Vec::new(alloc),
        }
    }
}
