//! How rows are asked, and the program's runs.
ghost use Rattle.std.specs.Prelude.{◌≡◌, ◌<◌, ◌≤◌, IfSome, length, slice_get, string_bytes};
ghost use Rattle.relation_rows.specs.Rows.{IsRow};
ghost use Rattle.text_asking.specs.Programs.{IsHelp};

use crate::calls::called;
use crate::rows::{Row, row_named};
use std::alloc::Global;
use std::io;
use text_asking::ask_all;
use text_asking::programs::{WRONG, is_help, status_of};
use text_reading::naming::{NameError, look_up};
use text_reading::reading::{ReadError, read};
use text_reading::telling::{Lines, tell_unnamed, tell_unread};

/// Why a row's questions have no answers.
#[derive(Clone, Copy, PartialEq, Eq, Debug)]
pub enum RowFault {
    /// A growth was refused.
    Memory,
    /// The text can't be read.
    Unread(ReadError),
    /// Names of the text can't be looked up.
    Unnamed(NameError),
}

/// The answers to questions, with ` | ` between two.
///
/// # Errors
/// `Memory` where the text of the answers can't grow. `Unread` and `Unnamed` where the questions are no text of the
/// language, or say that a growth was refused.
pub fn asked(alloc: Global, questions: &str) -> Result<String, RowFault> {
    let tree = read(alloc, questions.as_bytes()).map_err(RowFault::Unread)?;
    let program = look_up(alloc, questions, &tree).map_err(RowFault::Unnamed)?;
    let mut text = String::new(alloc);
    match ask_all(alloc, &program, " | ", &mut text) {
        Ok(()) => Ok(text),
        Err(_) => Err(RowFault::Memory),
    }
}

/// The answers to a row's questions, or of its calls.
///
/// # Errors
/// As `asked` has them, and `Memory` where a call was refused a growth.
pub fn answers(alloc: Global, row: &Row) -> Result<String, RowFault> {
    if row.questions.is_empty() {
        return called(alloc, row.name);
    }
    asked(alloc, row.questions)
}

// Says why a row has no answers: that a growth was refused among the answers, and what is wrong with its text to `err`.
fn print_fault<O: io::Write, E: io::Write>(
    row: &Row,
    fault: &RowFault,
    out: &mut O,
    err: &mut E,
) -> io::Result<()> {
    let name = row.name;
    let mut err = Lines { out: err };
    match fault {
        RowFault::Memory
        | RowFault::Unread(ReadError::Memory)
        | RowFault::Unnamed(NameError::Memory) => writeln!(out, "{name}: memory")?,
        RowFault::Unread(error) => {
            let _ = tell_unread(name, row.questions.as_bytes(), error, &mut err);
        }
        RowFault::Unnamed(error) => {
            let _ = tell_unnamed(name, row.questions, error, &mut err);
        }
    }
    Ok(())
}

/// Prints a row, and says whether its answers are the stored ones. Where its text is wrong, nothing is printed, and
/// `err` is told so, with the row's name and the place.
///
/// # Errors
/// What `out` answers where it can't be written.
pub fn print<O: io::Write, E: io::Write>(
    alloc: Global,
    row: &Row,
    out: &mut O,
    err: &mut E,
) -> io::Result<bool> {
    match answers(alloc, row) {
        Ok(text) => {
            let name = row.name;
            writeln!(out, "{name}: {text}")?;
            Ok(text.as_str() == row.stored)
        }
        Err(fault) => {
            print_fault(row, &fault, out, err)?;
            Ok(false)
        }
    }
}

// Prints rows, and says whether all answers are the stored ones.
fn print_each<O: io::Write, E: io::Write>(
    alloc: Global,
    rows: &[Row],
    out: &mut O,
    err: &mut E,
) -> io::Result<bool> {
    let mut stored = true;
    for row in rows {
        if !print(alloc, row, out, err)? {
            stored = false;
        }
    }
    Ok(stored)
}

// The status of rows that were printed: 1 if an answer is not the stored one, a row's text is wrong, or a write failed.
// Of that `err` is told why.
fn status_printed<E: io::Write>(printed: io::Result<bool>, err: &mut E) -> u8
    ensures { result ≤ 1 }
{
    match printed {
        Ok(true) => 0,
        Ok(false) => 1,
        Err(error) => status_of(Err(error), err),
    }
}

// Writes which rows there are, and ends the line.
fn write_names<W: io::Write>(rows: &[Row], out: &mut W) -> io::Result<()> {
    write!(out, "rows:")?;
    for row in rows {
        let name = row.name;
        write!(out, " {name}")?;
    }
    writeln!(out)
}

// Writes how the program is used.
fn write_usage<W: io::Write>(out: &mut W) -> io::Result<()> {
    writeln!(out, "usage: relations [name]")
}

// Writes how the program is used, and which rows there are.
fn write_help<W: io::Write>(rows: &[Row], out: &mut W) -> io::Result<()> {
    write_usage(out)?;
    writeln!(
        out,
        "Prints the answers of the row of that name, or of all rows."
    )?;
    write_names(rows, out)
}

// Tells that no row has that name, and which names they have.
fn write_unknown<W: io::Write>(rows: &[Row], name: &str, out: &mut W) -> io::Result<()> {
    writeln!(out, "unknown row: {name}")?;
    write_names(rows, out)
}

// Runs the row of a name, or prints how the program is used and which rows there are.
#[tactic(auto, using(crate::proofs::Finding::found_is_row, crate::proofs::Finding::none_is_row))]
fn run_word<O: io::Write, E: io::Write>(
    alloc: Global,
    rows: &[Row],
    word: &str,
    out: &mut O,
    err: &mut E,
) -> u8
    ensures row { IsRow rows.now word.now → result ≤ 1 }
    ensures help { IsHelp word.now → result ≤ 1 }
    ensures no_row { (IsRow rows.now word.now → ⊥) → (IsHelp word.now → ⊥) → result ≡ 2 }
{
    if is_help(word) {
        return status_of(write_help(rows, out), err);
    }
    match row_named(rows, word) {
        Some(row) => status_printed(print(alloc, &row, out, err), err),
        None => {
            let _ = write_unknown(rows, word, err);
            WRONG
        }
    }
}

/// Runs one of the rows or all, or prints how the program is used and which rows there are, and answers the status: 2
/// where the words name no row, 1 where an answer is not the stored one, a row's text is wrong, or a write failed.
/// Where a row is not known, `err` is told which there are.
pub fn run<O: io::Write, E: io::Write>(
    alloc: Global,
    rows: &[Row],
    words: &[String],
    out: &mut O,
    err: &mut E,
) -> u8
    ensures usage { 1 < length words.now → result ≡ 2 }
    ensures all { length words.now ≡ 0 → result ≤ 1 }
    ensures row { length words.now ≤ 1 →
        IfSome (slice_get words.now 0) (λ w. IsRow rows.now (string_bytes w) → result ≤ 1) }
    ensures help { length words.now ≤ 1 →
        IfSome (slice_get words.now 0) (λ w. IsHelp (string_bytes w) → result ≤ 1) }
    ensures no_row { IfSome (slice_get words.now 0)
        (λ w. (IsRow rows.now (string_bytes w) → ⊥) → (IsHelp (string_bytes w) → ⊥) → result ≡ 2) }
{
    if words.len() > 1 {
        let _ = write_usage(err);
        return WRONG;
    }
    match words.first() {
        Some(word) => run_word(alloc, rows, word.as_str(), out, err),
        None => status_printed(print_each(alloc, rows, out, err), err),
    }
}
