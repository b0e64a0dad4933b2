//! Why a text can't be read.
ghost use Rattle.std.specs.Prelude.{◌≡◌, OnOk};
ghost use Rattle.std.specs.Fmt.{WritesInCalls};
ghost use Rattle.text_reading.specs.Errors.{span_of, expected_text, found_text, IsFound, WritesError};
ghost use Rattle.text_reading.specs.declared.reading.error.ReadError.TheVariants.{Memory};

use crate::reading::signs::Sign;
use std::alloc::{AllocError, AllocFailed};
use std::fmt::{self, Write};

/// What a text should have gone on with.
#[derive(Clone, Copy, PartialEq, Eq, Debug)]
pub enum Expected {
    Statement,
    Term,
    Region,
    Name,
    Number,
    Variable,
    /// A variable of any kind, not only of those that contexts are said to have.
    AnyVariable,
    Parameter,
    /// What a binder may bind, and a constant of a binder.
    Bound,
    BoundConst,
    /// What may stand behind `const` for a constant.
    Const,
    Relation,
    Sign(Sign),
    /// A comma, or the end of a list.
    CommaOr(Sign),
    /// Either of two signs.
    Either(Sign, Sign),
}

/// Why a text was not read. Places are bytes of the text.
#[derive(Clone, Copy, PartialEq, Eq, Debug)]
pub enum ReadError {
    /// A growth was refused.
    Memory,
    /// The text has more than `LONGEST` bytes.
    TooLong,
    /// What stands there begins no word.
    NoWord {
        at: usize,
    },
    /// The number there is too large.
    TooLarge {
        at: usize,
    },
    /// The term there stands inside more than `LEVELS` others.
    TooDeep {
        at: usize,
    },
    /// The word there, or the end of the text where it is empty, is not what was expected.
    Unexpected {
        at: usize,
        end: usize,
        expected: Expected,
    },
}

impl From<AllocError> for ReadError {
    ghost from_gives = { λ _ e. e ≡ Memory };

    fn from(_refused: AllocError) -> ReadError {
        ReadError::Memory
    }
}

impl<T: Drop> From<AllocFailed<T>> for ReadError {
    ghost from_gives = { λ _ e. e ≡ Memory };

    fn from(_refused: AllocFailed<T>) -> ReadError {
        ReadError::Memory
    }
}

impl ReadError {
    /// The bytes of the text that the error is about, if it is about some: from the first number on, those before the
    /// second.
    pub fn span(&self) -> Option<(usize, usize)>
        ensures { result ≡ span_of self.now }
    {
        match self {
            ReadError::Memory => None,
            ReadError::TooLong => None,
            ReadError::NoWord { at } => Some((*at, *at)),
            ReadError::TooLarge { at } => Some((*at, *at)),
            ReadError::TooDeep { at } => Some((*at, *at)),
            ReadError::Unexpected { at, end, .. } => Some((*at, *end)),
        }
    }
}

// Writes what was expected.
#[tactic(auto, using(crate::proofs::WriteLemmas::one_call))]
fn write_expected<W: Write>(expected: Expected, out: &mut W) -> fmt::Result
    ensures { OnOk result (WritesInCalls W.write_str_gives out.old (expected_text expected) out.new) }
{
    match expected {
        Expected::Statement => out.write_str("a statement"),
        Expected::Term => out.write_str("a term"),
        Expected::Region => out.write_str("a region"),
        Expected::Name => out.write_str("a name"),
        Expected::Number => out.write_str("a number"),
        Expected::Variable => out.write_str("a variable"),
        Expected::AnyVariable => out.write_str("a variable of any kind"),
        Expected::Parameter => out.write_str("a parameter"),
        Expected::Bound => out.write_str("a variable of a binder"),
        Expected::BoundConst => out.write_str("a constant of a binder"),
        Expected::Const => out.write_str("a placeholder or `{error}`"),
        Expected::Relation => out.write_str("`<:`, `:>`, `==` or `===`"),
        Expected::Sign(sign) => write!(out, "`{}`", sign.spelling()),
        Expected::CommaOr(sign) => write!(out, "`,` or `{}`", sign.spelling()),
        Expected::Either(one, other) => {
            write!(out, "`{}` or `{}`", one.spelling(), other.spelling())
        }
    }
}

// What stands between two places of a text: nothing, where these are no places of it.
pub(crate) fn found_at(text: &str, at: usize, end: usize) -> &str
    ensures { IsFound text.now at end result.now }
{
    match text.get(at..end) {
        Some(found) => found,
        None => "",
    }
}

// Writes what was found in place of what was expected.
#[tactic(auto, using(crate::proofs::WriteLemmas::one_call))]
fn write_found<W: Write>(found: &str, out: &mut W) -> fmt::Result
    ensures { OnOk result (WritesInCalls W.write_str_gives out.old (found_text found.now) out.new) }
{
    if found.is_empty() {
        out.write_str(", found the end")
    } else {
        write!(out, ", found `{found}`")
    }
}

/// Writes why a text was not read, without the place. Where something else was expected, it says what was found.
///
/// # Errors
/// `fmt::Error` where `out` refused to take some of the text. What it took before stands.
#[tactic(auto, using(crate::proofs::WriteLemmas::one_call))]
pub fn write_error<W: Write>(text: &str, error: &ReadError, out: &mut W) -> fmt::Result
    ensures { OnOk result (WritesError W.write_str_gives text.now error.now out.old out.new) }
{
    match error {
        ReadError::Memory => out.write_str("memory"),
        ReadError::TooLong => out.write_str("the text is longer than 1 MiB"),
        ReadError::NoWord { .. } => out.write_str("no word begins here"),
        ReadError::TooLarge { .. } => out.write_str("the number is too large"),
        ReadError::TooDeep { .. } => out.write_str("the term has more than 1024 levels"),
        ReadError::Unexpected { at, end, expected } => {
            out.write_str("expected ")?;
            write_expected(*expected, out)?;
            write_found(found_at(text, *at, *end), out)
        }
    }
}
