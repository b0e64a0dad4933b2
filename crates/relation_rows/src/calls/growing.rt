//! How far an elaboration goes that only its limit ends: what it yields is counted, and not printed.

use crate::running::{RowFault, asked};
use std::alloc::Global;
use std::fmt::Write;

// A trait that states itself of a larger type. Slices have the shortest text: with them the answer is not cut off.
const GROWING: &str = "param U; trait Foo<T>; super Foo: Self: Foo<[T]>;
    elaborate U: Foo<u8> limit 1000;";

/// Writes how many predicates are yielded where there may be 1,000 different ones, and what is answered then.
pub fn write_yielded<W: Write>(alloc: Global, out: &mut W) -> Result<(), RowFault> {
    let text = asked(alloc, GROWING)?;
    match text.as_str().rsplit_once(" | ") {
        Some((yielded, last)) => {
            let count = yielded.split(" | ").count();
            write!(out, "{count} | {last}")?;
        }
        None => out.write_str(text.as_str())?,
    }
    Ok(())
}
