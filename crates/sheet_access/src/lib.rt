// The letters, numbers and texts of a sheet's lines, of any bytes and at any place.
#![tactic(auto)]

ghost use Rattle.std.specs.Prelude.{◌≡◌};
ghost use Rattle.sheet_lines.specs.Shape.{text_in};
ghost use Rattle.sheet_access.specs.Access.{letter_at, cell_at, text_at};

use sheet_lines::Shape;
use sheet_parts::{LINE, NUMBERS, TEXT};

// Why no number is read: its columns hold none, or there are no such columns.
#[derive(Clone, Copy)]
pub enum NoNumber {
    Bad,
    Past,
}

// The letter of line i, of any bytes, or None past the end.
#[tactic(auto, unfolding(crate::specs::Access::letter_at))]
pub fn letter_at(s: &[u8], i: usize) -> Option<u8>
    ensures { result ≡ letter_at 6 s.now i }
{
    if i >= s.len() / LINE {
        return None;
    }
    let l = sheet_parts::line_bytes(s, i);
    Some(l[0])
}

// Number k of line i, of any bytes, by its columns alone.
#[tactic(auto, unfolding(crate::specs::Access::cell_at))]
pub fn number_at(s: &[u8], i: usize, k: usize) -> Result<u32, NoNumber>
    ensures { result ≡ cell_at 6 s.now i k }
{
    if i >= s.len() / LINE || k >= NUMBERS {
        return Err(NoNumber::Past);
    }
    sheet_lines::cell(sheet_parts::line_bytes(s, i), k).ok_or(NoNumber::Bad)
}

// The length of a line's text.
fn text_in(l: Option<Shape>) -> usize
    ensures { result ≡ text_in l }
{
    match l {
        Some(Shape::Named(_, k)) => k,
        Some(Shape::Row) | None => 0,
    }
}

// The text of line i, of any bytes: the part that holds it, empty where the line has none or is past the end.
pub fn text_at(s: &[u8], i: usize) -> &[u8]
    ensures { result.now ≡ text_at 6 s.now i }
{
    if i >= s.len() / LINE {
        return &s[0..0];
    }
    let line = sheet_parts::line_bytes(s, i);
    let end = TEXT + text_in(sheet_lines::read_line(line));
    &line[TEXT..end]
}
