//! How many goals relating two towers of pairs leaves.

use crate::calls::write_asked;
use crate::running::RowFault;
use std::alloc::Global;
use std::fmt::{self, Write};

// Writes the question: how many goals come of two towers of 60 pairs, each of the pair below it twice.
fn write_question<W: Write>(out: &mut W) -> fmt::Result {
    out.write_str("let a0 = ?0; let b0 = ?1;")?;
    for below in 0..60u32 {
        let next = below + 1;
        write!(
            out,
            "let a{next} = (a{below}, a{below}); let b{next} = (b{below}, b{below});"
        )?;
    }
    out.write_str("count goals a60 <: b60;")
}

/// Writes how many goals come of two towers of 60 pairs over a variable each.
pub(super) fn write_goals<W: Write>(alloc: Global, out: &mut W) -> Result<(), RowFault> {
    let mut question = String::new(alloc);
    write_question(&mut question)?;
    write_asked(alloc, question.as_str(), out)
}
