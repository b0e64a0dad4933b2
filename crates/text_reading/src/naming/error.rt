//! Why the names of a text can't be looked up.
ghost use Rattle.std.specs.Prelude.{◌≡◌, OnOk};
ghost use Rattle.std.specs.Fmt.{WritesInCalls};
ghost use Rattle.text_reading.specs.Names.{name_span_of, sort_name, expected_found, count_text, wrong_text};
ghost use Rattle.text_reading.specs.Names.{missing_name, before_missing, behind_missing, unknown_text};
ghost use Rattle.text_reading.specs.Names.{WritesNameError};
ghost use Rattle.text_reading.specs.declared.naming.error.NameError.TheVariants.{Memory};

use crate::naming::program::Sort;
use crate::naming::statements::{LAST_UNIVERSE, MOST_VARIABLES};
use crate::reading::{Leaf, Node, found_at};
use std::alloc::{AllocError, AllocFailed};
use std::fmt::{self, Write};

/// What a name would have to be where it stands.
#[derive(Clone, Copy, PartialEq, Eq, Debug)]
pub enum Missing {
    /// An item over arguments.
    Item,
    Trait,
    /// What a trait declares.
    Associated,
    /// A type: a parameter, or an item without arguments.
    Type,
    Const,
    Lifetime,
    /// What a binder binds.
    Bound,
}

/// What is wrong with a part of a text that reads.
#[derive(Clone, Copy, PartialEq, Eq, Debug)]
pub enum Wrong {
    /// Nothing of that name is known.
    Unknown(Missing),
    /// The name means something already.
    Again,
    /// A term of one sort is wanted, and there is one of another.
    Sort { expected: Sort, found: Sort },
    /// Arguments stand behind a name that is no item's.
    NoItem,
    /// The name is no trait's, and it is one's.
    NoTrait,
    IsTrait,
    /// The trait is another than that of the impl before.
    OtherTrait,
    /// No impl before has the number.
    NoImpl,
    /// Something is assigned where only arguments stand.
    Assigned,
    /// The item has another number of parameters than there are arguments.
    Count { expected: usize, found: usize },
    /// A type that is defined outside the language has no parameters.
    Parameter,
    /// What stands behind the digits of a number is no type of numbers.
    NumberType,
    /// The number is too large.
    TooLarge,
    /// The number of a variable is too large.
    TooManyVariables,
    /// The universe is above the last one, or below one in which variables stand already.
    Universe { least: usize },
    /// A type stands behind a number that only counts.
    Counted,
    /// What stands behind the universe of a placeholder is no place of a binder's list.
    Place,
    /// The predicate does not claim that a trait is implemented.
    NoBound,
    /// It claims neither that nor what a trait's type or constant is.
    NotProvable,
    /// What is to come to a term is no trait's type or constant.
    NoProjection,
    /// No predicate has the name.
    NoPredicate,
    /// No trait solver has the name.
    NoSolver,
    /// No typing mode has the name.
    NoMode,
    /// A question is asked no time at all.
    NoTime,
    /// No question stands before it.
    NothingBefore,
    /// The term has too many levels.
    TooDeep,
    /// Reading makes no such tree.
    NotRead,
}

/// Why the names of a text were not looked up.
#[derive(Clone, Copy, PartialEq, Eq, Debug)]
pub enum NameError {
    /// A growth was refused.
    Memory,
    /// The bytes of the text from `at` on, those before `end`, are wrong.
    Wrong { at: usize, end: usize, why: Wrong },
}

// What is made of a node, unless its text is wrong.
pub(super) type Named<T> = Result<T, NameError>;

impl From<AllocError> for NameError {
    ghost from_gives = { λ _ e. e ≡ Memory };

    fn from(_refused: AllocError) -> NameError {
        NameError::Memory
    }
}

impl<T: Drop> From<AllocFailed<T>> for NameError {
    ghost from_gives = { λ _ e. e ≡ Memory };

    fn from(_refused: AllocFailed<T>) -> NameError {
        NameError::Memory
    }
}

impl NameError {
    /// The bytes of the text that the error is about, if it is about some: from the first number on, those before the
    /// second.
    pub fn span(&self) -> Option<(usize, usize)>
        ensures { result ≡ name_span_of self.now }
    {
        match self {
            NameError::Memory => None,
            NameError::Wrong { at, end, .. } => Some((*at, *end)),
        }
    }
}

// What is wrong with a node.
pub(super) fn error_at(node: &Node, why: Wrong) -> NameError
    ensures { result ≡ NameError.Wrong node.now.start node.now.end why }
{
    NameError::Wrong {
        at: node.start,
        end: node.end,
        why,
    }
}

// Whether a node gives as many arguments as are expected.
pub(super) fn check_count(node: &Node, expected: usize, found: usize) -> Named<()> {
    if expected != found {
        return Err(error_at(node, Wrong::Count { expected, found }));
    }
    Ok(())
}

// What a leaf that is not known would have to be, where a term of that sort is wanted, if of one.
pub(super) fn missing_at(leaf: Leaf, expected: Option<Sort>) -> Missing {
    match leaf {
        Leaf::Lifetime => Missing::Lifetime,
        Leaf::BoundTy | Leaf::BoundConst => Missing::Bound,
        _ if expected == Some(Sort::Const) => Missing::Const,
        _ => Missing::Type,
    }
}

// What a term of that sort is called.
fn sort_name(sort: Sort) -> &'static str
    ensures { result.now ≡ sort_name sort }
{
    match sort {
        Sort::Region => "a region",
        Sort::Type => "a type",
        Sort::Const => "a constant",
        Sort::Pattern => "a pattern",
        Sort::Predicate => "a predicate",
    }
}

// Writes a number of arguments.
fn write_count<W: Write>(expected: usize, found: usize, out: &mut W) -> fmt::Result
    ensures { OnOk result (WritesInCalls W.write_str_gives out.old (count_text expected found) out.new) }
{
    let word = if expected == 1 {
        "argument"
    } else {
        "arguments"
    };
    write!(out, "expected {expected} {word}, found {found}")
}

// Writes what was expected, where the text itself tells what was found.
fn write_expected<W: Write>(expected: &str, found: &str, out: &mut W) -> fmt::Result
    ensures { OnOk result (WritesInCalls W.write_str_gives out.old (expected_found expected.now found.now) out.new) }
{
    write!(out, "expected {expected}, found `{found}`")
}

// What a name that is not known would have to be.
fn missing_name(missing: Missing) -> &'static str
    ensures { result.now ≡ missing_name missing }
{
    match missing {
        Missing::Item => "item yet",
        Missing::Trait => "trait yet",
        Missing::Associated => "item of the trait yet",
        Missing::Type => "type yet",
        Missing::Const => "constant yet",
        Missing::Lifetime => "lifetime yet",
        Missing::Bound => "variable of a binder around it",
    }
}

// What stands before the name where it is declared.
fn before_missing(missing: Missing) -> &'static str
    ensures { result.now ≡ before_missing missing }
{
    match missing {
        Missing::Item => "struct ",
        Missing::Trait => "trait ",
        Missing::Associated => "type Tr::",
        Missing::Type | Missing::Lifetime => "param ",
        Missing::Const => "param const ",
        Missing::Bound => "for<",
    }
}

// What stands behind the name where it is declared, and that this does so.
fn behind_missing(missing: Missing) -> &'static str
    ensures { result.now ≡ behind_missing missing }
{
    match missing {
        Missing::Item => "<+T>;` declares one",
        Missing::Bound => "> fn()` binds one",
        _ => ";` declares one",
    }
}

// Writes that a name is not known, with an example of what declares it.
fn write_unknown<W: Write>(found: &str, missing: Missing, out: &mut W) -> fmt::Result
    ensures { OnOk result (WritesInCalls W.write_str_gives out.old (unknown_text found.now missing) out.new) }
{
    let name = missing_name(missing);
    let before = before_missing(missing);
    let behind = behind_missing(missing);
    write!(out, "`{found}` is no {name}; `{before}{found}{behind}")
}

// Writes what is wrong with a part of a text.
#[tactic(auto, using(crate::proofs::WriteLemmas::one_call))]
fn write_wrong<W: Write>(found: &str, why: Wrong, out: &mut W) -> fmt::Result
    ensures { OnOk result (WritesInCalls W.write_str_gives out.old (wrong_text found.now why) out.new) }
{
    match why {
        Wrong::Unknown(missing) => write_unknown(found, missing, out),
        Wrong::Again => write_expected("a new name", found, out),
        Wrong::NoItem => write_expected("an item", found, out),
        Wrong::NoTrait => write_expected("a trait", found, out),
        Wrong::IsTrait => write_expected("no trait", found, out),
        Wrong::OtherTrait => write_expected("the trait of the impl before", found, out),
        Wrong::NoImpl => write_expected("the number of an impl before", found, out),
        Wrong::Assigned => write_expected("an argument", found, out),
        Wrong::Parameter => write_expected("no parameter", found, out),
        Wrong::NumberType => write_expected("a number of a type of numbers", found, out),
        Wrong::Counted => write_expected("a number alone", found, out),
        Wrong::Place => write_expected("a place by its number", found, out),
        Wrong::NoBound => write_expected("that a trait is implemented", found, out),
        Wrong::NotProvable => write_expected(
            "that a trait is implemented, or what its type is",
            found,
            out,
        ),
        Wrong::NoProjection => write_expected("a trait's type or constant", found, out),
        Wrong::NoPredicate => write_expected("a predicate", found, out),
        Wrong::NoSolver => write_expected("`old` or `next`", found, out),
        Wrong::NoMode => write_expected("a typing mode", found, out),
        Wrong::NoTime => write_expected("a number above 0", found, out),
        Wrong::Sort { expected, found } => {
            let (expected, found) = (sort_name(expected), sort_name(found));
            write!(out, "expected {expected}, found {found}")
        }
        Wrong::Count { expected, found } => write_count(expected, found, out),
        Wrong::TooLarge => out.write_str("the number is too large"),
        Wrong::TooManyVariables => {
            write!(
                out,
                "expected a variable below {MOST_VARIABLES}, found `{found}`"
            )
        }
        Wrong::Universe { least } => {
            write!(
                out,
                "expected a universe from {least} to {LAST_UNIVERSE}, found `{found}`"
            )
        }
        Wrong::NothingBefore => out.write_str("expected a question before this, found none"),
        Wrong::TooDeep => out.write_str("the term has more than 1024 levels"),
        Wrong::NotRead => out.write_str("expected what reading makes, found another tree"),
    }
}

/// Writes why the names of a text were not looked up, without the place.
///
/// # Errors
/// `fmt::Error` where `out` refused to take some of the text. What it took before stands.
#[tactic(auto, using(crate::proofs::WriteLemmas::one_call))]
pub fn write_name_error<W: Write>(text: &str, error: &NameError, out: &mut W) -> fmt::Result
    ensures { OnOk result (WritesNameError W.write_str_gives text.now error.now out.old out.new) }
{
    match error {
        NameError::Memory => out.write_str("memory"),
        NameError::Wrong { at, end, why } => { write_wrong(found_at(text, *at, *end), *why, out) }
    }
}
