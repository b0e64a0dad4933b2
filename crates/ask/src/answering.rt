//! Answers to the questions of a text, or what is wrong with it.
ghost use Rattle.std.specs.Prelude.{◌≡◌, ◌≤◌, ◌↔◌, IsTrue, codes};

use std::alloc::Global;
use std::fmt::{self, Write};
use std::io::{self, ErrorKind, Read};
use text_asking::ask_all;
use text_asking::programs::{WRONG, status_of};
use text_reading::naming::{Program, look_up};
use text_reading::reading::{ReadError, Tree, place_of, read};
use text_reading::telling::{Lines, tell_unnamed, tell_unread};

/// What standard input is called where a file's name stands.
pub const STDIN: &str = "stdin";

// How the program is used.
const USAGE: &str = "usage: ask [FILE]\n";

// What its status says, and where the language is told.
const HELP: &str = "\
Answers the questions of a file, or of standard input for `-` or no word, each on a line of its own.
The status is 0 where all was asked, 2 where the text is wrong or can't be read, 1 where an answer can't be written.
pages:
  docs/QUESTIONS.md    how questions are written, and how answers are read
  docs/DEFINITIONS.md  what it means that two terms are related
  docs/PROVED.md       what is proved of answers, and what is not
";

// One byte more than a text may have: then it is seen that a text has too many.
const ENOUGH: u64 = 1_048_577;

/// Whether that word stands for standard input.
pub fn is_stdin(word: &str) -> bool
    ensures { IsTrue result ↔ (word.now ≡ codes "-") }
{
    word == "-"
}

/// Writes how the program is used, on a line. Nothing is promised of that: a clause would be the text again.
///
/// # Errors
/// What the writer answers where it takes no more.
pub fn write_usage<W: io::Write>(out: &mut W) -> io::Result<()> {
    out.write_all(USAGE.as_bytes())
}

// Writes how the program is used, what its status says, and where the language is told.
fn write_help<O: io::Write>(out: &mut O) -> io::Result<()> {
    write_usage(out)?;
    out.write_all(HELP.as_bytes())?;
    out.flush()
}

/// Prints how the program is used, and gives the status. Where that can't be written, `err` is told why.
pub fn print_help<O: io::Write, E: io::Write>(out: &mut O, err: &mut E) -> u8
    ensures status { result ≤ 1 }
{
    status_of(write_help(out), err)
}

/// The bytes of a reader, as many as are needed to see that they are too many.
///
/// # Errors
/// What the reader answers, and that a growth was refused.
pub fn bytes_of<R: Read + Drop>(alloc: Global, reader: R) -> io::Result<Vec<u8>> {
    let mut bytes = Vec::new(alloc);
    let _ = reader.take(ENOUGH).read_to_end(&mut bytes)?;
    Ok(bytes)
}

// Writes a text, and where it ends a line all that waits in a buffer.
fn write_line<O: io::Write>(out: &mut O, text: &str) -> io::Result<()> {
    out.write_all(text.as_bytes())?;
    if text.ends_with('\n') {
        out.flush()?;
    }
    Ok(())
}

// A writer of text over one of bytes, which keeps why that failed. Behind each line it writes out what waits in a buffer:
// the next question may take long.
#[derive(Drop)]
struct Answers<'a, O> {
    out: &'a mut O,
    fault: Option<io::Error>,
}

impl<O: io::Write> Write for Answers<'_, O> {
    fn write_str(&mut self, text: &str) -> fmt::Result {
        match write_line(self.out, text) {
            Ok(()) => Ok(()),
            Err(error) => {
                self.fault = Some(error);
                Err(fmt::Error)
            }
        }
    }
}

// Answers all questions of a program, each on a line of its own.
fn answer_all<W: Write>(alloc: Global, program: &Program, out: &mut W) -> fmt::Result {
    ask_all(alloc, program, "\n", out)?;
    if program.questions.is_empty() {
        return Ok(());
    }
    out.write_str("\n")
}

// Writes all answers of a program, also those that wait in a buffer.
fn write_all<O: io::Write>(alloc: Global, program: &Program, out: &mut O) -> io::Result<()> {
    let mut answers = Answers { out, fault: None };
    match (answer_all(alloc, program, &mut answers), answers.fault) {
        (Ok(()), _) => answers.out.flush(),
        (Err(_), Some(error)) => Err(error),
        (Err(_), None) => Err(io::Error::from(ErrorKind::Other)),
    }
}

// Answers the questions of a text of which this is the tree.
fn answer_tree<O: io::Write, E: io::Write>(
    alloc: Global,
    name: &str,
    text: &str,
    tree: &Tree,
    out: &mut O,
    err: &mut Lines<'_, E>,
) -> u8
    ensures status { result ≤ 2 }
{
    let program = match look_up(alloc, text, tree) {
        Ok(program) => program,
        Err(error) => {
            let _ = tell_unnamed(name, text, &error, err);
            return WRONG;
        }
    };
    status_of(write_all(alloc, &program, out), err.out)
}

// Tells that the byte at a place of a text is not UTF-8.
fn tell_no_utf8<W: Write>(name: &str, bytes: &[u8], at: usize, out: &mut W) -> fmt::Result {
    let place = place_of(bytes, at.min(bytes.len()));
    let (line, column) = (place.line, place.column);
    writeln!(out, "{name}:{line}:{column}: the byte here is not UTF-8")
}

/// Answers the questions of a text, each on a line of its own, and gives the status. Where the text is wrong, `err` is
/// told so, and nothing is answered: of a text that is read whole, a byte that is not UTF-8 is told before all else.
/// Where an answer can't be written, `err` is told why.
pub fn answer<O: io::Write, E: io::Write>(
    alloc: Global,
    name: &str,
    bytes: &[u8],
    out: &mut O,
    err: &mut E,
) -> u8
    ensures status { result ≤ 2 }
{
    let mut err = Lines { out: err };
    match (read(alloc, bytes), str::from_utf8(bytes)) {
        (Ok(tree), Ok(text)) => answer_tree(alloc, name, text, &tree, out, &mut err),
        (Err(error), Ok(_)) | (Err(error @ (ReadError::Memory | ReadError::TooLong)), Err(_)) => {
            let _ = tell_unread(name, bytes, &error, &mut err);
            WRONG
        }
        (_, Err(error)) => {
            let _ = tell_no_utf8(name, bytes, error.valid_up_to(), &mut err);
            WRONG
        }
    }
}
