//! Both plain implementations under one path: an interner, and a context.

pub use crate::context::RefCtxt;
pub use reference_interner::RefInterner;
