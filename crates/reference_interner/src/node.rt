//! Nodes, and how a list of one is copied.
ghost use Rattle.std.specs.Prelude.{◌≡◌, IfOk};

use crate::{ItemId, NodeKey, ShortList, SymbolId};
use relation_terms::predicate::{ExistentialPredicate, PredicateKind};
use relation_terms::terms::{
    Binder, BoundVariableKind, ClauseKey, ConstKey, ConstKind, GenericArgKind, OutOfMemory, PatKey,
    PatternKind, RegionKind, TyKey, TyKind, ValTreeKind,
};
use std::alloc::Global;

/// What one key stands for.
#[derive(PartialEq, Eq, Hash, Drop)]
pub enum Node {
    /// A type, by its outermost form.
    Ty(TyKind<NodeKey, ItemId, SymbolId>),
    /// A region.
    Region(RegionKind<SymbolId>),
    /// A constant, by its outermost form.
    Const(ConstKind<NodeKey, ItemId, SymbolId>),
    /// A value tree, by its outermost form.
    ValTree(ValTreeKind<NodeKey>),
    /// A pattern, by its outermost form.
    Pat(PatternKind<NodeKey>),
    /// A list of generic arguments.
    Args(ShortList<GenericArgKind<NodeKey>>),
    /// A list of types.
    Tys(ShortList<TyKey<NodeKey>>),
    /// A list of constants, which a value is made of.
    Branches(Vec<ConstKey<NodeKey>>),
    /// A list of patterns, the alternatives of one.
    Alternatives(Vec<PatKey<NodeKey>>),
    /// A list of a trait object's predicates, each under its binder.
    ExistentialPredicates(Vec<Binder<NodeKey, ExistentialPredicate<NodeKey, ItemId>>>),
    /// A list of a binder's variables.
    BoundVars(Vec<BoundVariableKind<SymbolId>>),
    /// A predicate under its binder. A clause is a predicate.
    Predicate(Binder<NodeKey, PredicateKind<NodeKey, ItemId, SymbolId>>),
    /// A list of clauses, or the environment of these.
    Clauses(Vec<ClauseKey<NodeKey>>),
}

// The same values, in memory of their own.
pub fn copied<T: Copy>(alloc: Global, values: &[T]) -> Result<Vec<T>, OutOfMemory>
    ensures { IfOk result (λ v. v.items ≡ values.now) }
{
    let mut copies = Vec::new(alloc);
    copies.extend_from_slice(values)?;
    Ok(copies)
}
