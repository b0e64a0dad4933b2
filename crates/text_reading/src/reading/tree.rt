//! Trees of names.
ghost use Rattle.std.specs.Prelude.{◌≡◌, ◌+◌, ◌≤◌, [], IfOk, OnOk, OnErr, length, suc};
ghost use Rattle.text_reading.specs.Trees.{IsFounded, EachStands, EachBelow, node_words, AddsWords};

use crate::reading::words::Leaf;
use std::alloc::{AllocError, Global};
use term_enums::{BoundConstness, FnHeader, Mutability, PredicatePolarity, Variance};

/// What an item is.
#[derive(Clone, Copy, PartialEq, Eq, Debug)]
pub enum ItemSort {
    Struct,
    Fn,
    Closure,
    Coroutine,
    CoroutineClosure,
    /// What a coroutine holds while it rests.
    CoroutineWitness,
    Foreign,
    Trait,
    /// A trait that a type has unless it is said not to.
    AutoTrait,
    /// A type and a constant that a trait declares.
    AssocTy,
    AssocConst,
    /// A type and a constant that stand for others, in no trait.
    FreeTy,
    FreeConst,
    /// A type of which only the bounds are known.
    Opaque,
    /// A type and a constant of an `impl` without a trait.
    InherentTy,
    InherentConst,
}

/// What is said of the contexts that are made.
#[derive(Clone, Copy, PartialEq, Eq, Debug)]
pub enum Setting {
    /// How many instantiations each may make.
    Budget,
    /// For which trait solver they are made.
    Solver,
    /// In which typing mode they are.
    Mode,
}

/// How two terms are asked to be related.
#[derive(Clone, Copy, PartialEq, Eq, Debug)]
pub enum Relation {
    /// At a variance: an alias is left to a goal.
    At(Variance),
    /// At invariance, and an alias by its arguments.
    Structurally,
}

/// What is counted of what a relation leaves: its goals, or the constraints on regions.
#[derive(Clone, Copy, PartialEq, Eq, Debug)]
pub enum Counted {
    Goals,
    Regions,
}

/// How a quick test takes the parameters on the left and those on the right: as types of their own (rigid), or as
/// standing for any.
#[derive(Clone, Copy, PartialEq, Eq, Debug)]
pub enum SideParams {
    RigidRigid,
    RigidInfer,
    InferInfer,
}

/// How a key takes parameters: as standing for any type, or as types of their own.
#[derive(Clone, Copy, PartialEq, Eq, Debug)]
pub enum KeyParams {
    Infer,
    Rigid,
}

/// What the predicates are that a trait states: its super-predicates, what it implies, or what holds where it is
/// implemented in const contexts.
#[derive(Clone, Copy, PartialEq, Eq, Debug)]
pub enum StatedKind {
    Super,
    Implied,
    Const,
}

/// What a predicate claims of a trait: that it is implemented, or is not, or in const contexts too.
#[derive(Clone, Copy, PartialEq, Eq)]
pub enum Claim {
    Trait(PredicatePolarity),
    HostEffect(BoundConstness),
}

/// What a node makes of its parts.
#[derive(Clone, Copy)]
pub enum Form {
    /// The statements of a text.
    File,
    /// An item: its name, behind that of its trait if it is a trait's, and the parameters that it declares.
    Item(ItemSort),
    /// A type or a lifetime that an item declares: its name.
    Declared(Variance),
    /// A constant that an item declares: its name.
    DeclaredConst(Variance),
    /// Parameters of questions: a `Parameter` or a `ConstParameter` for each.
    Parameters,
    /// A type or a lifetime that is a parameter: its name, and its index if that is given.
    Parameter,
    /// A constant that is a parameter: its name, and its index if that is given.
    ConstParameter,
    /// How contexts are made from here on: a number or a name.
    Sets(Setting),
    /// Variables that are made, and their universe if that is given: a number.
    Variables,
    /// A name for a term: the name and the term.
    Let,
    /// What a trait states: the `Stating` of the trait, and its predicates.
    States(StatedKind),
    /// The trait that states the predicates behind it: its name.
    Stating,
    /// What is assumed from here on, in place of what was: the predicates, if any.
    Assumes,
    /// An impl, for later questions: the `Generics` that it is under, the `Given`, and the predicates that it asks for.
    Impl,
    /// An impl that there may be, with the same parts.
    OpenImpl,
    /// What an impl gives: the `Bound` of a binder that binds nothing, the `Named` of the trait, the type that implements
    /// it, and the `Gives`.
    Given,
    /// What an impl says that its trait's types and constants are: an `Assigned` for each.
    Gives,
    /// The trait that the language knows as `Sized`: its name.
    IsSized,
    /// That a type implements a trait, or not: the `Bound` of the binder, the type, and the `Named` of the trait.
    Claims(Claim),
    /// That a term outlives a region: the `Bound` of the binder, the term, and the region.
    OutlivesUnder,
    /// What an alias comes to: the `Bound` of the binder, the alias, and the term.
    ComesTo,
    /// A predicate that is said by its name: the `Bound` of the binder, the name, and the terms.
    Says,
    /// What follows from predicates: these, and the `Limit` and the `Pulls` that are given.
    Elaborate { only_self: bool, sized: bool },
    /// The supertraits of a predicate: the predicate, and the `Limit` if one is given.
    Supertraits,
    /// The traits that a trait leads to: its name.
    SupertraitIds,
    /// How many different predicates there may be: a number.
    Limit,
    /// How many predicates are asked for: a number.
    Pulls,
    /// Whether two terms are related.
    Question(Relation),
    /// Which terms a visitor meets: the visited term, the `Terms` at which it skips, and those at which it stops.
    Visit,
    /// What a walk of a term yields: the walked term, and after how many pulls what is under the last is skipped.
    Walk,
    /// What has to outlive a region for a type to outlive it.
    Components,
    /// What follows from terms that are assumed to outlive regions: an `Outlives` for each.
    Assumptions,
    /// A term, and the region that it outlives.
    Outlives,
    /// What comes of a term where others are put for its parts: the term, and a `Put` for each.
    Fold,
    /// Whether a variable stands in a term that a binder outside it binds.
    Escapes,
    /// Whether a variable that is no region stands in a term.
    Infers,
    /// Whether a type's outermost form stays what it is.
    Rigid,
    /// Whether two types may unify: the types, and the depth if that is given.
    MayUnify(SideParams),
    /// Whether two lists of arguments may unify: the `Terms` of each.
    ArgsMayUnify(SideParams),
    /// Whether two lists of arguments are related: the `Terms` of each.
    ArgsEqual,
    /// The key of a type.
    Key(KeyParams),
    /// How many goals or constraints on regions a relation leaves: the relation.
    Count(Counted),
    /// Whether two variables are one: both.
    One,
    /// What a variable is bound to: the variable.
    Binding,
    /// Whether the headers of two impls overlap: the `ImplHeader` of each.
    Overlap,
    /// Whether two impls overlap, with what each asks for: their numbers, and the depth if that is given.
    ImplsOverlap,
    /// The header of an impl: the `Generics` that it is under, the `Named` of the trait, and the type that implements it.
    ImplHeader,
    /// What an impl, or the type of a method, is generic over: a `Declared` or a `DeclaredConst` for each.
    Generics,
    /// Which methods of a table may be for a type: the `Method`s, and the type.
    Methods,
    /// A method: the `Generics` that the type is under which it is for, the type, and the method's name.
    Method,
    /// Whether what a relation records of regions can hold: an `Outlives` for each fact about regions.
    Solve,
    /// Whether a predicate follows from impls and from what is assumed: the predicate, and the depth if that is given.
    Prove,
    /// A list of terms.
    Terms,
    /// A term, and the one that is put for it.
    Put,
    /// The question that is its part, asked in the context that the question before left.
    Then,
    /// How many times a question is asked, and the question.
    Repeat,
    /// A name over arguments: the name, and the arguments.
    Applied,
    Never,
    /// What could not be told, of which an error was reported.
    Error,
    Slice,
    /// An array: its element's type and its length.
    Array,
    Tuple,
    RawPtr(Mutability),
    /// A reference: its region, and the type that it leads to.
    Ref(Mutability),
    /// A value that is made of constants.
    Branch,
    /// An expression: the number of its operation, and its arguments.
    Expr,
    /// A constant that is said to be one: a placeholder, or what could not be told.
    Const,
    /// The values of a type that a pattern admits: the type and the pattern.
    Pat,
    /// A pattern: the values between two constants, both included.
    Range,
    /// A pattern: what one of the patterns admits that are its parts.
    Or,
    /// A pattern: all but null.
    NotNull,
    /// The variables of a binder: the name of each.
    Bound,
    /// A function pointer: the `Bound` of its binder, its inputs, and its output.
    FnPtr(FnHeader),
    /// A type under a binder: the `Bound` of the binder, and the type.
    UnsafeBinder,
    /// A trait object: an `Implements` or a `Projects` for each bound, and the region.
    Object,
    /// That a trait is implemented: the `Bound` of the binder, and the `Named` of the trait.
    Implements,
    /// What a trait's type or constant is: the `Bound` of the binder, the `Named` of the trait and of what it declares,
    /// and the term.
    Projects,
    /// A trait, or what one declares: its name, its arguments, and an `Assigned` for each thing that a trait's is.
    Named,
    /// What a trait's type or constant is: its name, and the term.
    Assigned,
    /// A trait's type or constant, of a type that implements the trait: the type, and the `Named` of the trait and of
    /// what it declares.
    Associated,
}

/// What a node is: a word of the text, or a form over further nodes.
#[derive(Clone, Copy)]
pub enum NodeKind {
    Leaf(Leaf),
    Form(Form),
}

/// A node, the bytes of the text that it takes, from `start` on those before `end`, and where its parts stand in the
/// tree's list of parts: from `first` on, those before `behind`.
#[derive(Clone, Copy)]
pub struct Node {
    pub kind: NodeKind,
    pub start: usize,
    pub end: usize,
    pub first: usize,
    pub behind: usize,
}

/// The tree of a text. A part of a node has a smaller number than the node; the last node is the whole text.
#[derive(Drop)]
pub struct Tree {
    pub nodes: Vec<Node>,
    /// The numbers of the nodes' parts.
    pub parts: Vec<usize>,
    /// How many bytes the text has.
    pub text_len: usize,
    pub ghost founded: { IsFounded nodes.items parts.items },
    pub ghost stands: { EachStands nodes.items text_len },
}

impl Tree {
    // The tree without nodes, of a text of that many bytes.
    pub(super) fn new(alloc: Global, text_len: usize) -> Tree
        ensures nodes { length result.nodes.items ≡ 0 }
        ensures parts { length result.parts.items ≡ 0 }
        ensures text { result.text_len ≡ text_len }
        ensures leaves { node_words result.nodes.items ≡ [] }
    {
        Tree {
            nodes: Vec::new(alloc),
            parts: Vec::new(alloc),
            text_len,
        }
    }

    // Adds a node over parts that are there, and answers its number.
    #[tactic(auto, using(crate::proofs::TreeLemmas::node_words_more))]
    pub(super) fn push(
        &mut self,
        kind: NodeKind,
        start: usize,
        end: usize,
        parts: &[usize],
    ) -> Result<usize, AllocError>
        requires forwards { start ≤ end }
        requires inside { end ≤ self.old.text_len }
        requires there { EachBelow parts.now (length self.old.nodes.items) }
        ensures text { self.new.text_len ≡ self.old.text_len }
        ensures number { IfOk result (λ n. n ≡ length self.old.nodes.items) }
        ensures nodes { OnOk result (length self.new.nodes.items ≡ suc (length self.old.nodes.items)) }
        ensures parts { OnOk result (length self.new.parts.items ≡ length self.old.parts.items + length parts.now) }
        ensures leaves { OnOk result (AddsWords self.old.nodes.items self.new.nodes.items kind start end) }
        ensures refused { OnErr result (self.new.nodes.items ≡ self.old.nodes.items) }
    {
        let number = self.nodes.len();
        let first = self.parts.len();
        self.parts.extend_from_slice(parts)?;
        let behind = self.parts.len();
        self.nodes.push(Node {
            kind,
            start,
            end,
            first,
            behind,
        })?;
        Ok(number)
    }
}
