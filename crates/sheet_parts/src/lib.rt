// The parts of a sheet of six columns that its readers are lent: the bytes of a line, the columns of a number; and the letters that a line may have.
#![tactic(auto)]

ghost use Rattle.std.specs.Prelude.{◌≡◌, ◌+◌, ◌*◌, ◌≤◌, ◌<◌, length, take, drop};
ghost use Rattle.sheet.specs.Line.{lettered};
ghost use Rattle.sheet.specs.Sheet.{count, line_at};

// The columns of a number.
pub const COLUMNS: usize = 6;

// The numbers of a line.
pub const NUMBERS: usize = 5;

// The bytes of a line.
pub const LINE: usize = 32;

// The place of the last byte.
pub const LAST: usize = 31;

// The text of a name begins after the letter and the number, and ends before the last byte.
pub const TEXT: usize = 7;

// Whether a line of this letter has five numbers. C and D, and P and Q, stand apart: as ranges they would be tests of their own.
pub fn has_numbers(b: u8) -> bool
    ensures { result ≡ lettered b }
{
    match b {
        b'A' | b'F' | b'I' | b'P' | b'V' | b'Y' => true,
        b'C' => true,
        b'D' => true,
        b'Q' => true,
        _ => false,
    }
}

// The bytes of line i.
pub fn line_bytes(s: &[u8], i: usize) -> &[u8]
    requires { i < count 6 s.now }
    ensures { (result.now ≡ line_at 6 s.now i) × (length result.now ≡ 32) }
{
    let at = i * LINE;
    let end = at + LINE;
    &s[at..end]
}

// The columns of number k of a line.
pub fn number_part(l: &[u8], k: usize) -> &[u8]
    requires { (32 ≤ length l.now) × (k < 5) }
    ensures { (result.now ≡ take 6 (drop (1 + k * 6) l.now)) × (length result.now ≡ 6) }
{
    let at = 1 + k * COLUMNS;
    let end = at + COLUMNS;
    &l[at..end]
}
