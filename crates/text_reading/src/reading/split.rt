//! How a text is split into words.
ghost use Rattle.std.specs.Prelude.{◌≡◌, ◌<◌, ◌≤◌, true, false, IfSome, IfOk, IfErr, length, drop};
ghost use Rattle.text_reading.specs.Words.{skip, AreWordsOf, EachLies};
ghost use Rattle.text_reading.specs.Errors.{LiesIn};

use crate::reading::error::ReadError;
use crate::reading::signs::sign_of;
use crate::reading::words::{Leaf, Word, WordKind};
use std::alloc::Global;

// Whether a byte may stand in a name.
fn is_name_byte(byte: u8) -> bool {
    byte.is_ascii_alphanumeric() || byte == b'_'
}

// Where the line ends that has the byte `at`, which is in a comment.
fn line_end(text: &[u8], at: usize) -> usize
    requires { at ≤ length text.now }
    ensures behind { at ≤ result }
    ensures within { result ≤ length text.now }
    ensures comment { skip true (drop at text.now) ≡ skip false (drop result text.now) }
{
    let mut end = at;
    while end < text.len() && text[end] != b'\n' {
        end += 1;
    }
    end
}

// Where blanks and comments end that begin at `at`.
fn blank_end(text: &[u8], at: usize) -> usize
    requires { at ≤ length text.now }
    ensures behind { at ≤ result }
    ensures within { result ≤ length text.now }
    ensures blank { drop result text.now ≡ skip false (drop at text.now) }
{
    let mut end = at;
    while end < text.len() {
        if text[end].is_ascii_whitespace() {
            end += 1;
        } else if text[end] == b'/' && end + 1 < text.len() && text[end + 1] == b'/' {
            end = line_end(text, end + 1);
        } else {
            return end;
        }
    }
    end
}

// Where the bytes of a name end that begin at `at`.
fn name_end(text: &[u8], at: usize) -> usize
    requires { at ≤ length text.now }
    ensures behind { at ≤ result }
    ensures within { result ≤ length text.now }
{
    let mut end = at;
    while end < text.len() && is_name_byte(text[end]) {
        end += 1;
    }
    end
}

// The number whose digits begin at `at`, and where they end. There is to be one digit at least.
fn number_at(text: &[u8], at: usize) -> Result<(u128, usize), ReadError>
    requires { at ≤ length text.now }
    ensures behind { IfOk result (λ n. at < n.1) }
    ensures within { IfOk result (λ n. n.1 ≤ length text.now) }
    ensures wrong { IfErr result (LiesIn (length text.now)) }
{
    let mut value: u128 = 0;
    let mut end = at;
    while end < text.len() && text[end].is_ascii_digit() {
        let digit = u128::from(text[end] - b'0');
        let Some(tens) = value.checked_mul(10) else {
            return Err(ReadError::TooLarge { at });
        };
        let Some(more) = tens.checked_add(digit) else {
            return Err(ReadError::TooLarge { at });
        };
        value = more;
        end += 1;
    }
    if end == at {
        return Err(ReadError::NoWord { at });
    }
    Ok((value, end))
}

// The number of a variable or a universe whose digits begin at `at`, and where they end.
fn index_at(text: &[u8], at: usize) -> Result<(usize, usize), ReadError>
    requires { at ≤ length text.now }
    ensures behind { IfOk result (λ n. at < n.1) }
    ensures within { IfOk result (λ n. n.1 ≤ length text.now) }
    ensures wrong { IfErr result (LiesIn (length text.now)) }
{
    let (value, end) = number_at(text, at)?;
    match usize::try_from(value) {
        Ok(index) => Ok((index, end)),
        Err(_) => Err(ReadError::TooLarge { at }),
    }
}

// A name or a word of the language, whose first byte is at `at`.
fn name_at(text: &[u8], at: usize) -> (WordKind, usize)
    requires { at < length text.now }
    ensures behind { at < result.1 }
    ensures within { result.1 ≤ length text.now }
{
    let end = name_end(text, at + 1);
    match sign_of(&text[at..end]) {
        Some(sign) => (WordKind::Sign(sign), end),
        None => (WordKind::Leaf(Leaf::Name), end),
    }
}

// The universe of a placeholder whose `!` is at `at`, where its name or its place begins, and where that ends.
fn universe_at(text: &[u8], at: usize) -> Result<(usize, usize, usize), ReadError>
    requires { at < length text.now }
    ensures behind { IfOk result (λ u. at < u.2) }
    ensures within { IfOk result (λ u. u.2 ≤ length text.now) }
    ensures wrong { IfErr result (LiesIn (length text.now)) }
{
    let (universe, behind) = index_at(text, at + 1)?;
    let dotted = behind < text.len() && text[behind] == b'.';
    let tail = if dotted { behind + 1 } else { behind };
    let end = name_end(text, tail);
    if end == tail {
        return Err(ReadError::NoWord { at });
    }
    Ok((universe, behind, end))
}

// The place behind a `.`, if digits stand behind one: where they begin, and where they end.
fn place_at(text: &[u8], at: usize) -> Result<Option<(usize, usize)>, ReadError>
    requires { at ≤ length text.now }
    ensures behind { IfOk result (λ o. IfSome o (λ p. at < p.1)) }
    ensures within { IfOk result (λ o. IfSome o (λ p. p.1 ≤ length text.now)) }
    ensures wrong { IfErr result (LiesIn (length text.now)) }
{
    if at + 1 >= text.len() || text[at] != b'.' || !text[at + 1].is_ascii_digit() {
        return Ok(None);
    }
    let (_, end) = index_at(text, at + 1)?;
    Ok(Some((at + 1, end)))
}

// A region that a binder outside the term binds, whose `^` is at `at`.
fn outer_region_at(text: &[u8], at: usize) -> Result<(WordKind, usize), ReadError>
    requires { at < length text.now }
    ensures behind { IfOk result (λ w. at < w.1) }
    ensures within { IfOk result (λ w. w.1 ≤ length text.now) }
    ensures wrong { IfErr result (LiesIn (length text.now)) }
{
    let (number, end) = index_at(text, at + 1)?;
    let (depth, behind, end) = match place_at(text, end)? {
        Some((place, end)) => (number, place, end),
        None => (0, at + 1, end),
    };
    Ok((WordKind::Leaf(Leaf::OuterRegion { depth, behind }), end))
}

// A lifetime, or a region that is a variable, a placeholder, or bound outside the term.
fn region_at(text: &[u8], at: usize) -> Result<(WordKind, usize), ReadError>
    requires { at < length text.now }
    ensures behind { IfOk result (λ w. at < w.1) }
    ensures within { IfOk result (λ w. w.1 ≤ length text.now) }
    ensures wrong { IfErr result (LiesIn (length text.now)) }
{
    let next = at + 1;
    if next < text.len() && text[next] == b'?' {
        let (number, end) = index_at(text, next + 1)?;
        return Ok((WordKind::Leaf(Leaf::RegionVar(number)), end));
    }
    if next < text.len() && text[next] == b'!' {
        let (universe, behind, end) = universe_at(text, next)?;
        let leaf = Leaf::RegionPlaceholder { universe, behind };
        return Ok((WordKind::Leaf(leaf), end));
    }
    if next < text.len() && text[next] == b'^' {
        return outer_region_at(text, next);
    }
    let end = name_end(text, next);
    if end == next {
        return Err(ReadError::NoWord { at });
    }
    Ok((WordKind::Leaf(Leaf::Lifetime), end))
}

// A placeholder.
fn placeholder_at(text: &[u8], at: usize) -> Result<(WordKind, usize), ReadError>
    requires { at < length text.now }
    ensures behind { IfOk result (λ w. at < w.1) }
    ensures within { IfOk result (λ w. w.1 ≤ length text.now) }
    ensures wrong { IfErr result (LiesIn (length text.now)) }
{
    let (universe, behind, end) = universe_at(text, at)?;
    Ok((WordKind::Leaf(Leaf::Placeholder { universe, behind }), end))
}

// Whether a variable behind whose `?` that stands is of another kind than type and region.
fn is_variable_letter(byte: u8) -> bool {
    byte == b'i' || byte == b'f' || byte == b'c'
}

// The variable of that letter and that number.
fn lettered_variable(letter: u8, number: usize) -> Leaf {
    match letter {
        b'i' => Leaf::IntVar(number),
        b'f' => Leaf::FloatVar(number),
        _ => Leaf::ConstVar(number),
    }
}

// A variable that is no region.
fn variable_at(text: &[u8], at: usize) -> Result<(WordKind, usize), ReadError>
    requires { at < length text.now }
    ensures behind { IfOk result (λ w. at < w.1) }
    ensures within { IfOk result (λ w. w.1 ≤ length text.now) }
    ensures wrong { IfErr result (LiesIn (length text.now)) }
{
    let next = at + 1;
    if next < text.len() && is_variable_letter(text[next]) {
        let (number, end) = index_at(text, next + 1)?;
        let leaf = lettered_variable(text[next], number);
        return Ok((WordKind::Leaf(leaf), end));
    }
    let (number, end) = index_at(text, next)?;
    Ok((WordKind::Leaf(Leaf::TyVar(number)), end))
}

// A type that a binder binds, or a constant, whose number stands behind a `c`: by the name that the binder gives it, or
// by how many binders stand between and its place.
fn bound_at(text: &[u8], at: usize) -> Result<(WordKind, usize), ReadError>
    requires { at < length text.now }
    ensures behind { IfOk result (λ w. at < w.1) }
    ensures within { IfOk result (λ w. w.1 ≤ length text.now) }
    ensures wrong { IfErr result (LiesIn (length text.now)) }
{
    let next = at + 1;
    let constant = next < text.len() && text[next] == b'c';
    let (depth, end) = index_at(text, if constant { next + 1 } else { next })?;
    let (leaf, end) = match place_at(text, end)? {
        Some((behind, end)) if constant => (Leaf::OuterConst { depth, behind }, end),
        Some((behind, end)) => (Leaf::OuterTy { depth, behind }, end),
        None if constant => (Leaf::BoundConst, end),
        None => (Leaf::BoundTy, end),
    };
    Ok((WordKind::Leaf(leaf), end))
}

// A calling convention in quotes.
fn quoted_at(text: &[u8], at: usize) -> Result<(WordKind, usize), ReadError>
    requires { at < length text.now }
    ensures behind { IfOk result (λ w. at < w.1) }
    ensures within { IfOk result (λ w. w.1 ≤ length text.now) }
    ensures wrong { IfErr result (LiesIn (length text.now)) }
{
    let quote = name_end(text, at + 1);
    if quote < text.len() {
        if let Some(sign) = sign_of(&text[at..quote + 1]) {
            return Ok((WordKind::Sign(sign), quote + 1));
        }
    }
    Err(ReadError::NoWord { at })
}

// Whether a byte may stand in a mark behind its first.
fn is_further_byte(byte: u8) -> bool {
    byte == b':' || byte == b'>' || byte == b'=' || byte == b'.'
}

// The longest mark.
fn mark_at(text: &[u8], at: usize) -> Result<(WordKind, usize), ReadError>
    requires { at < length text.now }
    ensures behind { IfOk result (λ w. at < w.1) }
    ensures within { IfOk result (λ w. w.1 ≤ length text.now) }
    ensures wrong { IfErr result (LiesIn (length text.now)) }
{
    let mut end = at + 1;
    while end < text.len() && end - at < 3 && is_further_byte(text[end]) {
        end += 1;
    }
    'marks: while end > at {
        if let Some(sign) = sign_of(&text[at..end]) {
            return Ok((WordKind::Sign(sign), end));
        }
        end -= 1;
    }
    Err(ReadError::NoWord { at })
}

// The word that begins at `at`, and where it ends.
fn word_at(text: &[u8], at: usize) -> Result<(WordKind, usize), ReadError>
    requires { at < length text.now }
    ensures behind { IfOk result (λ w. at < w.1) }
    ensures within { IfOk result (λ w. w.1 ≤ length text.now) }
    ensures wrong { IfErr result (LiesIn (length text.now)) }
{
    let byte = text[at];
    if byte.is_ascii_digit() {
        let (value, behind) = number_at(text, at)?;
        let end = name_end(text, behind);
        return Ok((WordKind::Leaf(Leaf::Number { value, behind }), end));
    }
    if is_name_byte(byte) {
        return Ok(name_at(text, at));
    }
    if byte == b'\'' {
        return region_at(text, at);
    }
    if byte == b'?' {
        return variable_at(text, at);
    }
    if byte == b'!' && at + 1 < text.len() && text[at + 1].is_ascii_digit() {
        return placeholder_at(text, at);
    }
    if byte == b'^' {
        return bound_at(text, at);
    }
    if byte == b'"' {
        return quoted_at(text, at);
    }
    mark_at(text, at)
}

// The words of a text.
pub(super) fn words(alloc: Global, text: &[u8]) -> Result<Vec<Word>, ReadError>
    ensures words { IfOk result (λ ws. AreWordsOf text.now ws.items) }
    ensures inside { IfOk result (λ ws. EachLies ws.items (length text.now)) }
    ensures wrong { IfErr result (LiesIn (length text.now)) }
{
    let mut words = Vec::new(alloc);
    let mut behind = 0;
    'words: loop {
        let start = blank_end(text, behind);
        if start >= text.len() {
            return Ok(words);
        }
        let (kind, end) = word_at(text, start)?;
        words.push(Word { kind, start, end })?;
        behind = end;
    }
}
