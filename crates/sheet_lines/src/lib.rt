// Reading one line of a sheet of six columns.
#![tactic(auto)]

pub mod texts;

ghost use Rattle.std.specs.Prelude.{◌≡◌, ◌≤◌, ◌<◌, length};
ghost use Rattle.sheet.specs.Line as line;
ghost use Rattle.sheet_lines.specs.Shape as shape;

use sheet_parts::{LAST, LINE, NUMBERS, TEXT, has_numbers};

// What a line is: an N line with its number and the length of its text, or a line of five numbers.
#[derive(Clone, Copy)]
pub enum Shape {
    Named(u32, usize),
    Row,
}

// Number k of a line, if its columns hold one.
#[tactic(auto, unfolding(sheet::specs::Line::cell))]
pub fn cell(l: &[u8], k: usize) -> Option<u32>
    requires { (32 ≤ length l.now) × (k < 5) }
    ensures { result ≡ line.cell 6 l.now k }
{
    number_readers::read_number(sheet_parts::number_part(l, k))
}

// Whether the columns of number k of a line hold one.
#[tactic(auto, unfolding(sheet::specs::Line::cell))]
fn has_number(l: &[u8], k: usize) -> bool
    requires { (32 ≤ length l.now) × (k < 5) }
    ensures { result ≡ line.is_value (line.cell 6 l.now k) }
{
    number_readers::is_number(sheet_parts::number_part(l, k))
}

// An N line with the number n and a text of k bytes. Both have to be there.
fn named_shape(n: Option<u32>, k: usize) -> Option<Shape>
    ensures { result ≡ shape.named_shape n k }
{
    let v = n?;
    if k == 0 {
        return None;
    }
    Some(Shape::Named(v, k))
}

// A line of five numbers.
fn read_row(l: &[u8]) -> Option<Shape>
    requires { 32 ≤ length l.now }
    ensures { result ≡ shape.shape_of (line.decode_row 6 l.now) }
{
    for k in 0..NUMBERS {
        if !has_number(l, k) {
            return None;
        }
    }
    Some(Shape::Row)
}

// An N line.
fn read_named(l: &[u8]) -> Option<Shape>
    requires { 32 ≤ length l.now }
    ensures { result ≡ shape.shape_of (line.decode_named 6 l.now) }
{
    let n = texts::text_length(&l[TEXT..LAST]);
    named_shape(cell(l, 0), n)
}

// The line at the front of any bytes, if one stands there: its letter decides what else it must hold.
pub fn read_line(l: &[u8]) -> Option<Shape>
    ensures { result ≡ shape.shape_of (line.decode 6 l.now) }
{
    if l.len() < LINE {
        return None;
    }
    if l[LAST] != 10 {
        return None;
    }
    if l[0] == b'N' {
        return read_named(l);
    }
    if has_numbers(l[0]) {
        return read_row(l);
    }
    None
}
