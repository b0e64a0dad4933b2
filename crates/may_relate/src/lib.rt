//! What may be related in a context: a test, whose `Ok` gives all that relating asks of a term, and whose error tells
//! what in the term stands in the way.
//!
//! A caller who knows nothing of two terms asks `may_relate` of each, and relates them. One who reads terms that name
//! variables of their own, as those of a text, makes first as many variables as `named_in` tells.
#![tactic(auto)]

mod around;
mod leaves;
mod named;
mod relatable;
mod seen;
mod unfit;
mod variables;
mod walk;

pub use around::{Around, AroundOf};
pub use named::{Named, named_in};
pub use relatable::{Relatable, may_relate};
pub use seen::{Seen, SeenOf};
pub use unfit::Unfit;
pub use variables::HasVariables;
