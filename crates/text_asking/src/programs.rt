//! What programs that ask have alike: the word that asks how they are used, and what they tell where they can't begin
//! or write, with the status of that.
ghost use Rattle.std.specs.Prelude.{◌≡◌, ◌≢◌, ◌≤◌, ◌↔◌, IsTrue, OnOk, OnErr};
ghost use Rattle.std.specs.IoError.{error_kind};
ghost use Rattle.text_asking.specs.Programs.{IsHelp};

use std::io::{self, ErrorKind};

/// The status where all was asked and written.
pub const ANSWERED: u8 = 0;

/// The status where an answer can't be written, or a growth was refused before the text was read.
pub const UNWRITTEN: u8 = 1;

/// The status where the text is wrong, can't be read, or the words are wrong.
pub const WRONG: u8 = 2;

/// Whether a word asks how the program is used.
pub fn is_help(word: &str) -> bool
    ensures { IsTrue result ↔ IsHelp word.now }
{
    word == "--help"
}

/// Tells why a program can't begin, and gives the status: what a word names is not UTF-8, or a growth was refused.
pub fn tell_unbegun<E: io::Write>(program: &str, named: &str, error: &io::Error, err: &mut E) -> u8
    ensures wrong { error_kind error.now ≡ ErrorKind.InvalidData → result ≡ 2 }
    ensures refused { error_kind error.now ≢ ErrorKind.InvalidData → result ≡ 1 }
{
    if error.kind() == ErrorKind::InvalidData {
        let _ = writeln!(err, "{program}: {named} is not UTF-8");
        return WRONG;
    }
    let _ = writeln!(err, "{program}: {error}");
    UNWRITTEN
}

/// The status of what was written to standard output. Where that failed, `err` is told why.
pub fn status_of<E: io::Write>(written: io::Result<()>, err: &mut E) -> u8
    ensures status { result ≤ 1 }
    ensures answered { OnOk written (result ≡ 0) }
    ensures failed { OnErr written (result ≡ 1) }
{
    match written {
        Ok(()) => ANSWERED,
        Err(error) => {
            let _ = writeln!(err, "standard output: {error}");
            UNWRITTEN
        }
    }
}
