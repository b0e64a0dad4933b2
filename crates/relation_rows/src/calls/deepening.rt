//! What is answered of two types under 1,000 slices, which no row writes out.

use crate::calls::write_asked;
use crate::running::RowFault;
use std::alloc::Global;
use std::fmt::{self, Write};

// Under how many slices the types stand.
const SLICES: usize = 1000;

// Writes a text as often as the types have slices.
fn write_often<W: Write>(text: &str, out: &mut W) -> fmt::Result {
    for _ in 0..SLICES {
        out.write_str(text)?;
    }
    Ok(())
}

// Writes two questions about `bool` and `char` under slices: whether they may unify, and whether they are related.
fn write_questions<W: Write>(out: &mut W) -> fmt::Result {
    for (before, ty) in [
        ("may unify[rigid, rigid] ", "bool"),
        (", ", "char"),
        ("; ", "bool"),
        (" == ", "char"),
    ] {
        out.write_str(before)?;
        write_often("[", out)?;
        out.write_str(ty)?;
        write_often("]", out)?;
    }
    out.write_str(";")
}

/// Writes whether `bool` and `char` under 1,000 slices may unify, and whether they are related.
pub(super) fn write_deep<W: Write>(alloc: Global, out: &mut W) -> Result<(), RowFault> {
    let mut questions = String::new(alloc);
    write_questions(&mut questions)?;
    write_asked(alloc, questions.as_str(), out)
}
