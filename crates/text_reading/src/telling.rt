//! What is wrong with a text is told on a line of its own, with the text's name and the place.

use crate::naming::{NameError, write_name_error};
use crate::reading::{ReadError, place_of, write_error};
use std::fmt::{self, Write};
use std::io;

/// A writer of text over one of bytes.
#[derive(Drop)]
pub struct Lines<'a, O> {
    pub out: &'a mut O,
}

impl<O: io::Write> Write for Lines<'_, O> {
    fn write_str(&mut self, text: &str) -> fmt::Result {
        self.out.write_all(text.as_bytes()).map_err(|_| fmt::Error)
    }
}

// Writes the name of a file and, if there is one, a place in its text.
fn write_place<W: Write>(
    name: &str,
    bytes: &[u8],
    span: Option<(usize, usize)>,
    out: &mut W,
) -> fmt::Result {
    out.write_str(name)?;
    match span {
        Some((at, _)) if at <= bytes.len() => {
            let place = place_of(bytes, at);
            write!(out, ":{}:{}: ", place.line, place.column)
        }
        _ => out.write_str(": "),
    }
}

/// Tells why a text can't be read.
pub fn tell_unread<W: Write>(
    name: &str,
    bytes: &[u8],
    error: &ReadError,
    out: &mut W,
) -> fmt::Result {
    write_place(name, bytes, error.span(), out)?;
    write_error(str::from_utf8(bytes).unwrap_or(""), error, out)?;
    out.write_str("\n")
}

/// Tells why the names of a text can't be looked up.
pub fn tell_unnamed<W: Write>(
    name: &str,
    text: &str,
    error: &NameError,
    out: &mut W,
) -> fmt::Result {
    write_place(name, text.as_bytes(), error.span(), out)?;
    write_name_error(text, error, out)?;
    out.write_str("\n")
}
