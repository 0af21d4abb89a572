// Row 3: the order of a sheet's lines and their counts, by their cells. The runs at its
// front are in order, so that only the lines after them are looked at one by one.
#![tactic(auto)]

mod steps;

ghost use Rattle.std.specs.Prelude.{◌≡◌, suc, length};
ghost use Rattle.sheet.specs.Sheet.{first};
ghost use Rattle.walk_cells.specs.Cells.{lines_of};
ghost use Rattle.rows_runs.specs.RunsLaws.{Spans};
ghost use Rattle.meaning.specs.Rows as rows;
ghost use Rattle.row3_order.specs.OrderLaws.{after_runs};

use meaning::Due;
use rows_runs::Runs;
use walk_cells::CELLS;

fn is_broken(q: Due) -> bool
    ensures { result ≡ rows.is_broken q }
{
    matches!(q, Due::Broken)
}

fn is_within(q: Due) -> bool
    ensures { result ≡ rows.is_within q }
{
    matches!(q, Due::Within { .. })
}

// What is due after the runs: a later part of the header, or a declaration.
fn due_after(r: Runs) -> Due
    ensures { result ≡ after_runs r }
{
    if r.types != r.args {
        return Due::Header(2);
    }
    if r.args != r.names {
        return Due::Header(1);
    }
    Due::Header(0)
}

// Row 3: the first line that does not fit, the count of lines where the sheet ends early, or one more.
pub fn row3(t: &[u32], r: Runs) -> usize
    requires { Spans (lines_of t.now) r }
    ensures { result ≡ first (rows.row3 (lines_of t.now)) (suc (length (lines_of t.now))) }
{
    let n = t.len() / CELLS;
    let mut q = due_after(r);
    for i in r.types..n {
        q = steps::due(t, i, q);
        if is_broken(q) {
            return i;
        }
    }
    if is_within(q) {
        return n;
    }
    n + 1
}
