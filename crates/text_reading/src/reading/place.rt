//! Places of a text, by line and column.
ghost use Rattle.std.specs.Prelude.{◌≡◌, ◌+◌, ◌^◌, ◌<◌, ◌≤◌, length, take};
ghost use Rattle.text_reading.specs.Places.{line_behind, column_behind, line_of, column_of};

/// A place of a text: its line and its column, both from 1, and how many bytes stand before it.
#[derive(Clone, Copy, PartialEq, Eq, Debug)]
pub struct Place {
    pub line: usize,
    pub column: usize,
    pub byte: usize,
}

// The line of what stands behind a byte.
fn line_behind(line: usize, byte: u8) -> usize
    requires { line + 1 < 2 ^ 64 }
    ensures { result ≡ line_behind line byte }
{
    if byte == b'\n' { line + 1 } else { line }
}

// The column of what stands behind a byte. The further bytes of a character are from 0x80 to 0xbf.
fn column_behind(column: usize, byte: u8) -> usize
    requires { column + 1 < 2 ^ 64 }
    ensures { result ≡ column_behind column byte }
{
    if byte == b'\n' {
        1
    } else if byte < 0x80 || byte > 0xbf {
        column + 1
    } else {
        column
    }
}

/// The place behind that many bytes of a text. A column counts characters.
#[tactic(auto, using(crate::proofs::PlaceLemmas::line_more, crate::proofs::PlaceLemmas::column_more))]
pub fn place_of(text: &[u8], byte: usize) -> Place
    requires { byte ≤ length text.now }
    ensures byte { result.byte ≡ byte }
    ensures line { result.line ≡ line_of (take byte text.now) }
    ensures column { result.column ≡ column_of (take byte text.now) }
{
    let mut line = 1;
    let mut column = 1;
    for before in &text[..byte] {
        line = line_behind(line, *before);
        column = column_behind(column, *before);
    }
    Place { line, column, byte }
}
