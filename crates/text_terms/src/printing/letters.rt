//! The letters that bound regions print by: those by which no region prints that stands free.
ghost use Rattle.std.specs.Prelude.{◌≡◌, Contains, IfSome};
ghost use Rattle.text_terms.specs.Letters.{skipping};

use std::alloc::AllocFailed;
use std::collections::BTreeSet;
use std::fmt::{self, Write};

// How many letters there are.
const LETTERS: usize = 26;

/// Letters, by their numbers: `'a` to `'z` have those from 0 on, `'a1` to `'z1` the next ones, and so on.
pub type Letters = BTreeSet<usize>;

// Which letter a text is, if it is one.
fn letter_named(text: &str) -> Option<usize> {
    let name = text.strip_prefix('\'')?;
    let letter = name.chars().next()?;
    if !letter.is_ascii_lowercase() {
        return None;
    }
    let place = (letter as u32 - 'a' as u32) as usize;
    match name.get(1..)? {
        "" => Some(place),
        round => round
            .parse::<usize>()
            .ok()?
            .checked_mul(LETTERS)?
            .checked_add(place),
    }
}

// Puts the letter that a text is to others, if it is one.
pub(super) fn take_letter(letters: &mut Letters, text: &str) -> Result<(), AllocFailed<usize>> {
    if let Some(letter) = letter_named(text) {
        letters.insert(letter)?;
    }
    Ok(())
}

// Of all letters but the taken ones, that of a number.
fn letter_at(taken: &Letters, number: usize) -> Option<usize>
    ensures numbered { IfSome result (λ l. l ≡ skipping taken.now.keys number) }
    ensures free { IfSome result (λ l. Contains taken.now.keys l → ⊥) }
{
    let mut letter = number;
    for next in taken.iter() {
        if letter < *next {
            return Some(letter);
        }
        letter = letter.checked_add(1)?;
    }
    Some(letter)
}

// Writes the letter of a bound region by the region's number: of all letters but the taken ones that of the number.
pub(super) fn write_letter<W: Write>(taken: &Letters, number: usize, out: &mut W) -> fmt::Result {
    let Some(letter) = letter_at(taken, number) else {
        return Err(fmt::Error);
    };
    let name = char::from(b'a' + (letter % LETTERS) as u8);
    let round = letter / LETTERS;
    if round == 0 {
        write!(out, "'{name}")
    } else {
        write!(out, "'{name}{round}")
    }
}
