// Rows 3, 4 and 5 of a sheet's Q lines (FORMAT, sections 5 and 12), between those of the declarations before them: the sheet's
// first refusal, from that of its declarations alone.
#![tactic(auto)]

ghost use Rattle.std.specs.Prelude.{◌≡◌, ◌++◌, false, not, ◌+◌, ◌*◌, ◌≤◌, ◌<◌, length};
ghost use Rattle.number_columns.specs.Column.{pick};
ghost use Rattle.sheet.specs.Format.{base};
ghost use Rattle.sheet.specs.Sheet.{first, count, line, lines, row1};
ghost use Rattle.meaning.specs.Program.{is, name_line};
ghost use Rattle.meaning.specs.Rows.{count_of, raw};
ghost use Rattle.meaning_patterns.specs.Patterns.{pattern_line};
ghost use Rattle.answer.specs.Answer as old;
ghost use Rattle.answer_patterns.specs.Whole as whole;
ghost use Rattle.answer_pattern_laws.specs.Parted.{Parted};
ghost use Rattle.answer_pattern_laws.specs.Refusals.{code_of};
ghost use Rattle.rows_patterns.specs.Kept.{NoBad, Patterned, Ranged, Kept};

use answer::Refusal;
use pattern_rows::PATTERNS;
use sheet_parts::{COLUMNS, LINE};
use walk_cells::CELLS;

// The code of a refusal, 0 of an acceptance.
fn code_of(r: Refusal) -> u32
    ensures { result ≡ code_of r }
{
    match r {
        Refusal::Accepted => 0,
        Refusal::Refused { code, place: _ } => code,
    }
}

// Row 3: the first line that is no Q line, or the count of lines.
fn first_other(z: &[u8]) -> usize
    ensures { result ≡ first (λ i. not (is pattern_line (raw 6 z.now i))) (count 6 z.now) }
{
    let n = z.len() / LINE;
    for i in 0..n {
        let l = sheet_parts::line_bytes(z, i);
        if l[0] != b'Q' {
            return i;
        }
    }
    n
}

// The count with line i.
fn counted(a: &[u8], i: usize, names: usize) -> usize
    requires { (i < count 6 a.now) × NoBad a.now × (names ≤ i) }
    ensures { result ≡ pick (is name_line (line 6 a.now i)) (names + 1) names }
{
    let l = sheet_parts::line_bytes(a, i);
    if l[0] == b'N' {
        return names + 1;
    }
    names
}

// The number of N lines.
fn names_of(a: &[u8]) -> usize
    requires { NoBad a.now }
    ensures { result ≡ count_of name_line (lines 6 a.now) }
{
    let n = a.len() / LINE;
    let mut names = 0;
    for i in 0..n {
        names = counted(a, i, names);
    }
    names
}

// Row 5: the first line out of range, or the count of lines; the lines' cells stay.
fn first_outside(z: &[u8], names: usize, q: &mut [u32]) -> usize
    requires { Patterned z.now × (6 * count 6 z.now ≤ length q.old) }
    ensures { Ranged names z.now q.new result × (length q.new ≡ length q.old) }
{
    let end = z.len() / LINE * CELLS;
    walk_decode::decode_lines(z, COLUMNS, &mut q[0..end]);
    pattern_rows::row5(&q[0..end], names)
}

// The first of rows 3 to 7 that applies to the declarations a and the Q lines z, where front is that of the declarations alone.
pub fn check(a: &[u8], z: &[u8], front: Refusal, q: &mut [u32]) -> Refusal
    requires parted { Parted 6 a.now z.now × (row1 base (a.now ++ z.now) ≡ false) × NoBad a.now }
    requires front_value { (front ≡ old.refusal (old.sheet_rows base a.now)) × (6 * count 6 z.now ≤ length q.old) }
    ensures value { result ≡ old.refusal (whole.sheet_rows base (a.now ++ z.now)) }
    ensures kept { Kept a.now z.now q.old q.new result }
{
    let code = code_of(front);
    if code == 3 {
        return front;
    }
    let m = a.len() / LINE;
    let k = z.len() / LINE;
    let other = first_other(z);
    if other < k {
        return Refusal::Refused {
            code: 3,
            place: m + other,
        };
    }
    if code == 4 {
        return front;
    }
    if k > PATTERNS {
        return Refusal::Refused {
            code: 4,
            place: m + PATTERNS,
        };
    }
    if code == 5 {
        return front;
    }
    let names = names_of(a);
    let outside = first_outside(z, names, q);
    if outside < k {
        return Refusal::Refused {
            code: 5,
            place: m + outside,
        };
    }
    front
}
