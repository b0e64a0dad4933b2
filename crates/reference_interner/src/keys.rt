//! The representations of the reference interner: all are numbers.
use crate::RefInterner;
use relation_terms::terms::Keys;

/// The number of a node.
#[derive(Clone, Copy, PartialEq, Eq, Hash, Debug)]
pub struct NodeKey(pub u32);

/// The number of an item.
#[derive(Clone, Copy, PartialEq, Eq, Hash, Debug)]
pub struct ItemId(pub u32);

/// The number of a name. The last number stands for no name: names that are numbered by their places in a list are
/// others.
#[derive(Clone, Copy, PartialEq, Eq, Hash, Debug)]
pub struct SymbolId(pub usize);

/// The place of what has none.
#[derive(Clone, Copy, PartialEq, Eq, Hash)]
pub struct NoSpan;

impl Keys for RefInterner {
    type Key = NodeKey;

    type Id = ItemId;

    type Name = SymbolId;

    type Span = NoSpan;
}
