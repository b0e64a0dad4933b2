//! How what the rows say is read.
ghost use Rattle.std.specs.Prelude.{◌≡◌, ◌+◌, ◌^◌, ◌<◌, ◌≤◌, IsTrue, IfSome, IfOk, IfErr, OnOk, length, suc};
ghost use Rattle.std.specs.List.{slice_get};
ghost use Rattle.text_reading.specs.Errors.{LiesIn};
ghost use Rattle.text_reading.specs.Trees.{EachBelow};
ghost use Rattle.text_reading.specs.Shapes.{most, rows_in};
ghost use Rattle.text_reading.specs.Rows.{IsOfSort};
ghost use Rattle.text_reading.specs.Signs.{header_signs, StandFrom};
ghost use Rattle.text_reading.specs.Words.{StandsAt, IsLeafAt};
ghost use Rattle.text_reading.specs.Written.{pieces_at, AreAlike, HasRead, IsOfRows};
ghost use Rattle.text_reading.specs.Reads.{GoesOn, Gathers, Stacks, StacksOne};

use crate::reading::error::{Expected, ReadError};
use crate::reading::headers::{is_pointer_binder_next, read_abi, read_safety};
use crate::reading::reader::Reader;
use crate::reading::rows::{PLAIN_HEADER, rows_of};
use crate::reading::shapes::{Line, Makes, Piece, Shape, Sort};
use crate::reading::signs::Sign;
use crate::reading::tree::Form;
use term_enums::FnHeader;

/// How many levels a term may have.
pub(super) const LEVELS: usize = 1024;

// How many forms may stand inside one another on one level; a level more is taken behind these.
const FORMS: usize = 16;

// The room of all levels: a number that falls with each form inside another.
pub(super) const ROOM: usize = LEVELS * FORMS + (FORMS - 1);

// What was read of a form beside its parts.
#[derive(Clone, Copy)]
struct Seen {
    // The last list was empty, or ended in a comma.
    loose: bool,
    // What stands before the inputs of a function pointer, and whether `..` stands behind them.
    header: FnHeader,
}

// The room inside a form of that sort, if there is some: a term takes a level, and so does a pattern in parentheses.
fn room_inside(sort: Sort, room: usize) -> Option<usize>
    ensures { IfSome result (λ inside. inside < room) }
{
    match sort {
        Sort::Plain | Sort::Grouped => (room / FORMS * FORMS).checked_sub(1),
        _ => room.checked_sub(1),
    }
}

// Whether a piece may stand where the next word begins. What begins with no word of its own always may.
fn fits(reader: &Reader, piece: Option<Piece>) -> bool {
    match piece {
        Some(Piece::Mark(sign) | Piece::OneOf(sign, _) | Piece::Next(sign)) => reader.is_next(sign),
        Some(Piece::Leaf(expected)) => reader.is_leaf_next(expected),
        Some(Piece::NextTwo(first, second)) => reader.is_next(first) && reader.is_behind(second),
        Some(Piece::NextName(sign)) => reader.is_leaf_next(Expected::Name)
            && reader.is_behind(sign),
        Some(Piece::NextPointer) => is_pointer_binder_next(reader),
        _ => true,
    }
}

// The piece of that number; none behind the last.
fn piece_at(pieces: &[Piece], at: usize) -> Option<Piece>
    ensures piece { result ≡ slice_get pieces.now at }
    ensures room { IfSome result (λ piece. at + 1 < 2 ^ 64) }
{
    pieces.get(at).copied()
}

// The piece of that number of a row; none behind its last.
fn piece_of(rows: &[Shape], row: usize, at: usize) -> Option<Piece>
    requires { row < length rows.now }
    ensures piece { result ≡ slice_get (pieces_at rows.now row) at }
    ensures few { IfSome result (λ piece. at < most rows.now) }
    ensures room { IfSome result (λ piece. at + 1 < 2 ^ 64) }
{
    piece_at(rows[row].1, at)
}

// Whether a row has another behind it that is written as it is up to that piece.
fn has_alike(rows: &[Shape], row: usize, at: usize) -> bool
    requires there { row < length rows.now }
    requires within { at ≤ length (pieces_at rows.now row) }
    ensures next { IsTrue result → row + 1 < length rows.now }
    ensures alike { IsTrue result → AreAlike rows.now at row (row + 1) }
{
    row + 1 < rows.len() && rows[row].1.get(..at) == rows[row + 1].1.get(..at)
}

// The row with which it goes on at that piece: of those that are written alike before it, the first whose piece fits,
// or the last.
fn turn(reader: &Reader, rows: &[Shape], row: usize, at: usize) -> usize
    requires there { row < length rows.now }
    requires within { at ≤ length (pieces_at rows.now row) }
    ensures there { result < length rows.now }
    ensures alike { AreAlike rows.now at row result }
{
    let mut found = row;
    'rows: while !fits(reader, piece_of(rows, found, at)) && has_alike(rows, found, at) {
        found += 1;
    }
    found
}

// Whether a part of that sort begins with the next word.
fn is_begun(reader: &Reader, sort: Sort) -> bool {
    fits(reader, piece_of(rows_of(sort), 0, 0))
}

// Whether the inputs of a function pointer are over before one, with what stands there.
fn are_inputs_over(reader: &mut Reader, seen: &mut Seen) -> Result<bool, ReadError>
    ensures words { reader.new.words ≡ reader.old.words }
    ensures tree { reader.new.tree ≡ reader.old.tree }
    ensures later { reader.old.at ≤ reader.new.at }
    ensures wrong { IfErr result (LiesIn reader.old.tree.text_len) }
{
    seen.header.c_variadic = reader.accept(Sign::Dots);
    if seen.header.c_variadic {
        reader.expect(Sign::RightParen)?;
        return Ok(true);
    }
    Ok(reader.accept(Sign::RightParen))
}

// Whether a list is over before a part, with what stands there.
fn is_over(reader: &mut Reader, line: Line, seen: &mut Seen) -> Result<bool, ReadError>
    ensures words { reader.new.words ≡ reader.old.words }
    ensures tree { reader.new.tree ≡ reader.old.tree }
    ensures later { reader.old.at ≤ reader.new.at }
    ensures wrong { IfErr result (LiesIn reader.old.tree.text_len) }
{
    match line {
        Line::To(end) => Ok(reader.accept(end)),
        Line::Inputs => are_inputs_over(reader, seen),
        Line::By(_) => Ok(false),
        Line::Bounds => Ok(reader.is_leaf_next(Expected::Region)),
    }
}

// Goes over a comma, where one stands, or over the sign that ends a list. Answers whether it was a comma.
fn read_comma(reader: &mut Reader, end: Sign) -> Result<bool, ReadError>
    ensures words { reader.new.words ≡ reader.old.words }
    ensures tree { reader.new.tree ≡ reader.old.tree }
    ensures later { reader.old.at ≤ reader.new.at }
    ensures over { IfOk result (λ more. IsTrue more → reader.old.at < reader.new.at) }
    ensures wrong { IfErr result (LiesIn reader.old.tree.text_len) }
{
    if reader.accept(Sign::Comma) {
        return Ok(true);
    }
    if reader.accept(end) {
        return Ok(false);
    }
    Err(reader.unexpected(Expected::CommaOr(end)))
}

// Goes over what stands behind a part of a list. Answers whether it goes on behind that.
fn read_between(reader: &mut Reader, line: Line) -> Result<bool, ReadError>
    ensures words { reader.new.words ≡ reader.old.words }
    ensures tree { reader.new.tree ≡ reader.old.tree }
    ensures later { reader.old.at ≤ reader.new.at }
    ensures over { IfOk result (λ more. IsTrue more → reader.old.at < reader.new.at) }
    ensures wrong { IfErr result (LiesIn reader.old.tree.text_len) }
{
    match line {
        Line::To(end) => read_comma(reader, end),
        Line::Inputs => read_comma(reader, Sign::RightParen),
        Line::By(sign) => Ok(reader.accept(sign)),
        Line::Bounds => {
            reader.expect(Sign::Plus)?;
            Ok(true)
        }
    }
}

// Reads a sign; what was expected in its place is told where it does not stand there.
fn read_mark(reader: &mut Reader, sign: Sign, expected: Expected) -> Result<(), ReadError>
    ensures there { OnOk result (StandsAt reader.old.words.items reader.old.at sign) }
    ensures over { OnOk result (reader.new.at ≡ suc reader.old.at) }
    ensures words { reader.new.words ≡ reader.old.words }
    ensures tree { reader.new.tree ≡ reader.old.tree }
    ensures later { reader.old.at ≤ reader.new.at }
    ensures wrong { IfErr result (LiesIn reader.old.tree.text_len) }
{
    if reader.accept(sign) {
        Ok(())
    } else {
        Err(reader.unexpected(expected))
    }
}

// Reads a leaf.
fn read_leaf(
    reader: &mut Reader,
    stack: &mut Vec<usize>,
    expected: Expected,
) -> Result<(), ReadError>
    requires { EachBelow stack.old.items (length reader.old.tree.nodes.items) }
    ensures there { OnOk result (IsLeafAt reader.old.words.items reader.old.at) }
    ensures over { OnOk result (reader.new.at ≡ suc reader.old.at) }
    ensures goes { GoesOn reader.old reader.new }
    ensures nodes { OnOk result (Stacks reader.old reader.new stack.old.items stack.new.items) }
    ensures wrong { IfErr result (LiesIn reader.old.tree.text_len) }
{
    let leaf = reader.take(expected)?;
    stack.push(leaf)?;
    Ok(())
}

// Reads what stands before the inputs of a function pointer.
fn read_header(reader: &mut Reader, seen: &mut Seen) -> Result<(), ReadError>
    ensures there { OnOk result (StandFrom reader.old.words.items reader.old.at
        (header_signs seen.new.header.safety seen.new.header.abi)) }
    ensures words { reader.new.words ≡ reader.old.words }
    ensures tree { reader.new.tree ≡ reader.old.tree }
    ensures later { reader.old.at ≤ reader.new.at }
    ensures over { OnOk result (reader.old.at < reader.new.at) }
    ensures wrong { IfErr result (LiesIn reader.old.tree.text_len) }
{
    seen.header.safety = read_safety(reader);
    seen.header.abi = read_abi(reader)?;
    Ok(())
}

// Reads a list.
#[cycle(parts)]
fn read_list(
    reader: &mut Reader,
    stack: &mut Vec<usize>,
    sort: Sort,
    line: Line,
    seen: &mut Seen,
    room: usize,
) -> Result<(), ReadError>
    requires { EachBelow stack.old.items (length reader.old.tree.nodes.items) }
    ensures goes { GoesOn reader.old reader.new }
    ensures nodes { OnOk result (Stacks reader.old reader.new stack.old.items stack.new.items) }
    ensures wrong { IfErr result (LiesIn reader.old.tree.text_len) }
{
    seen.loose = true;
    'list: while !is_over(reader, line, seen)? {
        read_part(reader, stack, sort, room)?;
        if !read_between(reader, line)? {
            seen.loose = false;
            return Ok(());
        }
    }
    Ok(())
}

// Reads a piece. Answers whether the form goes on behind it.
#[cycle(parts)]
fn read_piece(
    reader: &mut Reader,
    stack: &mut Vec<usize>,
    piece: Piece,
    seen: &mut Seen,
    room: usize,
) -> Result<bool, ReadError>
    requires { EachBelow stack.old.items (length reader.old.tree.nodes.items) }
    ensures written { IfOk result (HasRead reader.old.words.items piece reader.old.at reader.new.at) }
    ensures goes { GoesOn reader.old reader.new }
    ensures nodes { OnOk result (Stacks reader.old reader.new stack.old.items stack.new.items) }
    ensures wrong { IfErr result (LiesIn reader.old.tree.text_len) }
{
    match piece {
        Piece::Mark(sign) => reader.expect(sign)?,
        Piece::OneOf(sign, expected) => read_mark(reader, sign, expected)?,
        Piece::Leaf(expected) => read_leaf(reader, stack, expected)?,
        Piece::Part(sort) => read_part(reader, stack, sort, room)?,
        Piece::Maybe(sort) => {
            if is_begun(reader, sort) {
                read_part(reader, stack, sort, room)?;
            }
        }
        Piece::List(sort, line) => read_list(reader, stack, sort, line, seen, room)?,
        Piece::Unless(sign, sort) => {
            if !reader.is_next(sign) {
                read_list(reader, stack, sort, Line::By(Sign::Comma), seen, room)?;
            }
        }
        Piece::Further(sign) => return Ok(reader.accept(sign)),
        Piece::Header => read_header(reader, seen)?,
        Piece::Next(_) | Piece::NextTwo(_, _) | Piece::NextName(_) | Piece::NextPointer => {}
    }
    Ok(true)
}

// Reads the pieces of a form of which these are the rows, and answers what it makes.
#[cycle(parts)]
fn read_pieces(
    reader: &mut Reader,
    stack: &mut Vec<usize>,
    rows: &[Shape],
    seen: &mut Seen,
    room: usize,
) -> Result<Makes, ReadError>
    requires rows { 0 < length rows.now }
    requires below { EachBelow stack.old.items (length reader.old.tree.nodes.items) }
    ensures written { IfOk result (IsOfRows reader.old.words.items (rows_in rows.now) reader.old.at reader.new.at) }
    ensures goes { GoesOn reader.old reader.new }
    ensures nodes { OnOk result (Stacks reader.old reader.new stack.old.items stack.new.items) }
    ensures wrong { IfErr result (LiesIn reader.old.tree.text_len) }
{
    let mut row = 0;
    let mut at = 0;
    'pieces: loop {
        row = turn(reader, rows, row, at);
        let Some(piece) = piece_of(rows, row, at) else {
            return Ok(rows[row].0);
        };
        if !read_piece(reader, stack, piece, seen, room)? {
            return Ok(rows[row].0);
        }
        at += 1;
    }
}

// Makes the node of a form that was read, of what was put upon the stack from that place on.
fn end(
    reader: &mut Reader,
    stack: &mut Vec<usize>,
    makes: Makes,
    seen: Seen,
    start: usize,
    base: usize,
) -> Result<(), ReadError>
    requires inside { start ≤ reader.old.tree.text_len }
    requires base { base ≤ length stack.old.items }
    requires there { EachBelow stack.old.items (length reader.old.tree.nodes.items) }
    ensures goes { GoesOn reader.old reader.new }
    ensures at { reader.new.at ≡ reader.old.at }
    ensures there { OnOk result (EachBelow stack.new.items (length reader.new.tree.nodes.items)) }
    ensures one { OnOk result (length stack.new.items ≡ suc base) }
    ensures nodes { OnOk result (Gathers 0 reader.old reader.new stack.old.items stack.new.items) }
    ensures wrong { IfErr result (LiesIn reader.old.tree.text_len) }
{
    let form = match makes {
        Makes::Lone(_) if stack.len() == base + 1 && !seen.loose => return Ok(()),
        Makes::Node(Form::FnPtr(_)) => Form::FnPtr(seen.header),
        Makes::Lone(form) | Makes::Node(form) => form,
    };
    let node = reader.make(form, start, &stack[base..])?;
    stack.truncate(base);
    stack.push(node)?;
    Ok(())
}

// Reads what is of a sort, and puts its node upon the stack.
#[cycle(parts)]
pub(super) fn read_part(
    reader: &mut Reader,
    stack: &mut Vec<usize>,
    sort: Sort,
    room: usize,
) -> Result<(), ReadError>
    requires { EachBelow stack.old.items (length reader.old.tree.nodes.items) }
    ensures written { OnOk result (IsOfSort reader.old.words.items sort reader.old.at reader.new.at) }
    ensures goes { GoesOn reader.old reader.new }
    ensures node { OnOk result (StacksOne reader.old reader.new stack.old.items stack.new.items) }
    ensures wrong { IfErr result (LiesIn reader.old.tree.text_len) }
{
    let start = reader.place();
    let Some(inside) = room_inside(sort, room) else {
        return Err(ReadError::TooDeep { at: start });
    };
    let base = stack.len();
    let mut seen = Seen {
        loose: false,
        header: PLAIN_HEADER,
    };
    let makes = read_pieces(reader, stack, rows_of(sort), &mut seen, inside)?;
    end(reader, stack, makes, seen, start, base)
}
