//! How a text is read whole.
ghost use Rattle.std.specs.Prelude.{◌≡◌, ◌<◌, ◌≤◌, ◌↔◌, Err, IfOk, IfErr, OnOk, length, suc};
ghost use Rattle.text_reading.specs.Errors.{LiesIn};
ghost use Rattle.text_reading.specs.Reads.{GoesOn, AddsRoots, IsReadFrom};
ghost use Rattle.text_reading.specs.declared.reading.error.ReadError.TheVariants.{TooLong};

use crate::reading::error::ReadError;
use crate::reading::parts::{ROOM, read_part};
use crate::reading::reader::Reader;
use crate::reading::shapes::Sort;
use crate::reading::signs::Sign;
use crate::reading::split::words;
use crate::reading::tree::{Form, Tree};
use std::alloc::Global;

/// How many bytes a text may have: 1 MiB.
pub const LONGEST: usize = 1_048_576;

// Reads all statements that are left, and answers the node over them.
fn read_statements(reader: &mut Reader) -> Result<usize, ReadError>
    ensures goes { GoesOn reader.old reader.new }
    ensures node { OnOk result (AddsRoots 1 reader.old.tree reader.new.tree) }
    ensures whole { OnOk result (reader.new.at ≡ length reader.new.words.items) }
    ensures wrong { IfErr result (LiesIn reader.old.tree.text_len) }
{
    let mut stack = Vec::new(reader.alloc);
    'statements: while reader.next().is_some() {
        read_part(reader, &mut stack, Sort::Statement, ROOM)?;
        reader.expect(Sign::Semicolon)?;
    }
    reader.make(Form::File, 0, &stack)
}

/// Reads a text whole. The last node is the `File`, and each other is a part of one node. The leaves are those words of
/// the text that are no signs, in their order.
///
/// # Errors
/// `TooLong` where the text has more than `LONGEST` bytes, `Memory` where a growth was refused, and else what is wrong
/// at the first place where the text goes wrong.
pub fn read(alloc: Global, text: &[u8]) -> Result<Tree, ReadError>
    ensures text { IfOk result (λ t. t.text_len ≡ length text.now) }
    ensures words { IfOk result (IsReadFrom text.now) }
    ensures whole { IfOk result (λ t. length t.nodes.items ≡ suc (length t.parts.items)) }
    ensures long { result ≡ Err TooLong ↔ LONGEST < length text.now }
    ensures wrong { length text.now ≤ LONGEST → IfErr result (LiesIn (length text.now)) }
{
    if text.len() > LONGEST {
        return Err(ReadError::TooLong);
    }
    let mut reader = Reader {
        alloc,
        words: words(alloc, text)?,
        at: 0,
        tree: Tree::new(alloc, text.len()),
    };
    let _ = read_statements(&mut reader)?;
    Ok(reader.tree)
}
