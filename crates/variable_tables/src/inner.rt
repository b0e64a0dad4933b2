//! The tables of a context.
use crate::table::VariableTable;
use relation_semantics::infer_ctxt::TypingMode;
use relation_terms::predicate::{OutlivesPredicate, RegionConstraint};
use relation_terms::terms::{ConstKey, RegionKey, TyKey, UniverseIndex};
use variable_classes::VariableClasses;

/// What is recorded of a variable, whose terms are `K`. Of a region variable nothing is.
#[derive(Clone, Copy)]
pub enum VariableValue<K> {
    /// Nothing.
    Unknown,
    /// That it is the same as another of a smaller number, the root of its class.
    SameAs(usize),
    /// The term that it is bound to.
    Known(K),
}

/// A variable: its key, what is recorded of it, and its universe.
#[derive(Clone, Copy)]
pub struct Variable<K> {
    pub key: K,
    pub value: VariableValue<K>,
    pub universe: UniverseIndex,
}

/// What a context has recorded: its variables of each kind by their numbers, the constraints on regions and the types
/// that are to outlive regions in order, of each type variable the root of those that it is marked as related to, the
/// current universe, and how many instantiations may still be made; whether the next solver is on, the typing mode, and
/// whether an error was met; and the keys of all integer and float types.
#[derive(Drop)]
pub struct InferCtxtInner<X> {
    pub types: VariableTable<TyKey<X>>,
    pub ints: VariableTable<TyKey<X>>,
    pub floats: VariableTable<TyKey<X>>,
    pub consts: VariableTable<ConstKey<X>>,
    pub regions: VariableTable<RegionKey<X>>,
    pub constraints: Vec<RegionConstraint<X>>,
    pub ty_outlives: Vec<OutlivesPredicate<X, TyKey<X>>>,
    pub sub_roots: VariableClasses,
    pub universe: UniverseIndex,
    pub budget: usize,
    pub next_solver: bool,
    pub mode: TypingMode<X>,
    pub tainted: bool,
    pub numbers: Vec<TyKey<X>>,
}
