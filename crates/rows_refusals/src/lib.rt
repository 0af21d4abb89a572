// Rows 2 to 7 (FORMAT, section 5), in the order in which they are tested, of bytes that passed row 1. Row 2 puts the lines into lent
// cells, and here the rows of cells become those of bytes.
#![tactic(auto)]

ghost use Rattle.std.specs.Prelude.{map, ◌≡◌, false, ◌*◌, length};
ghost use Rattle.sheet.specs.Format.{base};
ghost use Rattle.sheet.specs.Sheet.{count, lines, row1, row2};
ghost use Rattle.walk_cells.specs.Cells.{lines_of, bare};
ghost use Rattle.rows_refusals.specs.Rows.{refused_as, checked_of, Checks};

use answer::Refusal;
use row4_limits::Counts;
use sheet_parts::{COLUMNS, LINE};
use walk_cells::CELLS;

// The first of the rows that applies; and where none does what the sheet declares, else zeros.
#[derive(Clone, Copy)]
pub struct Checked {
    pub refusal: Refusal,
    pub counts: Counts,
}

fn refused(code: u32, place: usize) -> Checked
    ensures { result ≡ refused_as code place }
{
    let counts = Counts {
        names: 0,
        args: 0,
        types: 0,
        decls: 0,
        ctors: 0,
        fields: 0,
    };
    Checked {
        refusal: Refusal::Refused { code, place },
        counts,
    }
}

// Rows 3 to 7, of the cells of the lines.
fn lines_checked(s: &[u8], t: &[u32]) -> Checked
    requires { (row1 base s.now ≡ false) × (row2 6 s.now ≡ count 6 s.now) × (lines_of t.now ≡ map bare (lines 6 s.now)) }
    ensures { result ≡ checked_of s.now }
{
    let n = t.len() / CELLS;
    let front = rows_runs::runs_of(t);
    let misplaced = row3_order::row3(t, front);
    if misplaced <= n {
        return refused(3, misplaced);
    }
    let walked = row4_counting::walk(t, front);
    let past = walked.past;
    if past < n {
        return refused(4, past);
    }
    let counts = walked.counts;
    let names = counts.names;
    let args = counts.args;
    let types = counts.types;
    let outside = row5_ranges::row5(t, names, args, types);
    if outside < n {
        return refused(5, outside);
    }
    let from = names + args + types;
    let repeated = row6_distinct::row6(s, t, names, from);
    if repeated < n {
        return refused(6, repeated);
    }
    let wrong = row7_verdicts::row7(t, from);
    if wrong < n {
        return refused(7, wrong);
    }
    Checked {
        refusal: Refusal::Accepted,
        counts,
    }
}

// Tests rows 2 to 7, and leaves in the cells the lines of a sheet that passes them.
pub fn check_rows(s: &[u8], t: &mut [u32]) -> Checked
    requires { (row1 base s.now ≡ false) × (length t.old ≡ 6 * count 6 s.now) }
    ensures { Checks s.now t.new result }
{
    let n = s.len() / LINE;
    let bad = walk_decode::decode_lines(s, COLUMNS, t);
    if bad < n {
        return refused(2, bad);
    }
    lines_checked(s, t)
}
