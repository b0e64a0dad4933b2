//! The text of an answer, which is made before it is written, and cut off where it grows too long.
ghost use Rattle.std.specs.Prelude.{◌≡◌, ◌++◌, string_bytes};

use std::alloc::{AllocError, Global};
use std::fmt::{self, Write};

// How many bytes an answer may have before its text grows: those of tests and keys are shorter, and so need no memory.
const START: usize = 256;

/// How many bytes of an answer are told, 1 MiB: the text of a type that was doubled 60 times would never end.
pub(super) const LONGEST: usize = 1_048_576;

/// What stands behind an answer that is cut off.
pub(super) const CUT_OFF: &str = "..";

/// A text that takes so many more bytes, and once it was to take more than that no other.
#[derive(Drop)]
pub(super) struct AnswerText {
    pub(super) text: String,
    pub(super) room: usize,
    /// Whether the text is cut off.
    pub(super) cut: bool,
}

impl AnswerText {
    /// An empty text of an answer, with memory for a short one.
    ///
    /// # Errors
    /// `AllocError` where a growth was refused.
    pub(super) fn new(alloc: Global) -> Result<AnswerText, AllocError> {
        let text = String::with_capacity(alloc, START)?;
        Ok(AnswerText {
            text,
            room: LONGEST,
            cut: false,
        })
    }

    /// An empty text that takes so many bytes, for a part of an answer.
    pub(super) fn with_room(alloc: Global, room: usize) -> AnswerText {
        AnswerText {
            text: String::new(alloc),
            room,
            cut: false,
        }
    }

    /// Takes all away that was written, for the next answer.
    pub(super) fn clear(&mut self) {
        self.text.clear();
        self.room = LONGEST;
        self.cut = false;
    }

    // Takes the front of a text for which there is no room, as much as there is room for.
    fn cut_off(&mut self, text: &str) {
        let front = text.get(..self.room).unwrap_or("");
        if self.text.push_str(front).is_ok() {
            self.cut = true;
        }
        self.room = 0;
    }
}

impl Write for AnswerText {
    ghost write_str_gives = { λ s bs t. string_bytes t.text ≡ string_bytes s.text ++ bs };

    fn write_str(&mut self, text: &str) -> fmt::Result {
        if self.cut || text.len() > self.room {
            self.cut_off(text);
            return Err(fmt::Error);
        }
        if self.text.push_str(text).is_err() {
            return Err(fmt::Error);
        }
        self.room -= text.len();
        Ok(())
    }
}
