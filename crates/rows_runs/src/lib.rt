// The runs of N, A and Y lines at the front of a sheet, by the letters of its cells.
#![tactic(auto)]

ghost use Rattle.std.specs.Prelude.{◌≡◌, ◌≤◌, length};
ghost use Rattle.walk_cells.specs.Cells.{lines_of};
ghost use Rattle.rows_runs.specs.Runs as runs;

use walk_cells::CELLS;

// The line after each run: after the N lines, after the A lines and after the Y lines.
#[derive(Clone, Copy)]
pub struct Runs {
    pub names: usize,
    pub args: usize,
    pub types: usize,
}

// The first line from a line on that has another letter, or the count of lines.
fn run_end(t: &[u32], from: usize, letter: u32) -> usize
    requires { from ≤ length (lines_of t.now) }
    ensures { result ≡ runs.run_end letter (lines_of t.now) from }
{
    let n = t.len() / CELLS;
    for i in from..n {
        if walk_cells::letter(t, i) != letter {
            return i;
        }
    }
    n
}

// The runs at the front.
#[tactic(auto, using(crate::specs::RunsLaws::run_le), unfolding(crate::specs::Runs::runs_of))]
pub fn runs_of(t: &[u32]) -> Runs
    ensures { result ≡ runs.runs_of (lines_of t.now) }
{
    let names = run_end(t, 0, 78);
    let args = run_end(t, names, 65);
    let types = run_end(t, args, 89);
    Runs { names, args, types }
}
