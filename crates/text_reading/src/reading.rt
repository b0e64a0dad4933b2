//! A text becomes words, and the words a tree of names with places.

mod error;
mod headers;
mod parts;
mod place;
mod reader;
mod rows;
mod shapes;
mod signs;
mod split;
mod text;
mod tree;
mod words;

pub(crate) use error::found_at;
pub use error::{Expected, ReadError, write_error};
pub use place::{Place, place_of};
pub use signs::Sign;
pub use text::read;
pub use tree::{
    Claim, Counted, Form, ItemSort, KeyParams, Node, NodeKind, Relation, Setting, SideParams,
    StatedKind, Tree,
};
pub use words::{Leaf, Word, WordKind};
