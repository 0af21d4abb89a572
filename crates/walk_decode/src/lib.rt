// Row 2 and the decoding of lines, in one walk: each line's letter and numbers go into six lent cells. For numbers of six to nine columns.
#![tactic(auto)]

mod numbers;

ghost use Rattle.std.specs.Prelude.{◌≡◌, [], ◌∷◌, ◌+◌, ◌*◌, ◌≤◌, ◌<◌, length, get_or};
ghost use Rattle.number_columns.specs.Column as col;
ghost use Rattle.sheet.specs.Format.{line_bytes};
ghost use Rattle.sheet.specs.Line as line;
ghost use Rattle.sheet.specs.Sheet as sheet;
ghost use Rattle.walk_decode.specs.Decode as decode;
ghost use Rattle.walk_decode.specs.DecodeLaws.{Begun};

use sheet_parts::{NUMBERS, has_numbers};
use walk_cells::CELLS;

// Puts a number into cell k, where there is one. It is compiled into the loops that call it.
fn put(n: Option<u32>, c: &mut [u32], k: usize) -> bool
    requires { k < length c.old }
    ensures { (result ≡ col.is_value n) × (c.new ≡ decode.stored n c.old k) }
{
    let Some(v) = n else {
        return false;
    };
    c[k] = v;
    true
}

// The letter and the first two numbers of a line, which have one digit, two or three.
fn put_front(l: &[u8], w: usize, c: &mut [u32]) -> bool
    requires { (length l.now ≡ line_bytes w) × (6 ≤ w) × (w < 10) × (length c.old ≡ 6) }
    ensures { Begun w l.now result c.new }
{
    c[0] = u32::from(l[0]);
    for k in 0..2 {
        let at = 1 + k * w;
        if !put(numbers::number(&l[at..at + w]), c, 1 + k) {
            return false;
        }
    }
    true
}

// A line of five numbers. The last three nearly always have one digit.
fn put_row(l: &[u8], w: usize, c: &mut [u32]) -> bool
    requires { (length l.now ≡ line_bytes w) × (6 ≤ w) × (w < 10) × (length c.old ≡ 6) }
    ensures { decode.Put (line.decode_row w l.now) result c.new }
{
    if !put_front(l, w, c) {
        return false;
    }
    for k in 2..NUMBERS {
        let at = 1 + k * w;
        if !put(numbers::short_number(&l[at..at + w]), c, 1 + k) {
            return false;
        }
    }
    true
}

// An N line: the number of the name, and a text.
fn put_named(l: &[u8], w: usize, c: &mut [u32]) -> bool
    requires { (length l.now ≡ line_bytes w) × (6 ≤ w) × (w < 10) × (length c.old ≡ 6) }
    ensures { decode.Put (line.decode_named w l.now) result c.new }
{
    let text = 1 + w;
    let end = 5 * w + 1;
    let Some(n) = numbers::short_number(&l[1..text]) else {
        return false;
    };
    if sheet_lines::texts::text_length(&l[text..end]) == 0 {
        return false;
    }
    c[0] = u32::from(b'N');
    c[1] = n;
    c[2..].fill(0);
    true
}

// The line of these bytes.
fn put_line(l: &[u8], w: usize, c: &mut [u32]) -> bool
    requires { (length l.now ≡ line_bytes w) × (6 ≤ w) × (w < 10) × (length c.old ≡ 6) }
    ensures { decode.Put (line.decode w l.now) result c.new }
{
    if l[5 * w + 1] != 10 {
        return false;
    }
    if l[0] == b'N' {
        return put_named(l, w, c);
    }
    if has_numbers(l[0]) {
        return put_row(l, w, c);
    }
    false
}

// Row 2 for w columns: the first bad line, or the count of lines. Where none is bad, the cells hold all lines.
pub fn decode_lines(s: &[u8], w: usize, t: &mut [u32]) -> usize
    requires { (6 ≤ w) × (w < 10) × (6 * sheet.count w s.now ≤ length t.old) }
    ensures { decode.Decoded w s.now t.old result t.new }
{
    let bytes = 5 * w + 2;
    let n = s.len() / bytes;
    for i in 0..n {
        let at = i * bytes;
        let first = i * CELLS;
        if !put_line(&s[at..at + bytes], w, &mut t[first..first + CELLS]) {
            return i;
        }
    }
    n
}
