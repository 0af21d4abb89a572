// The letters and numbers of lines that were decoded into cells, six to a line.
#![tactic(auto)]

pub mod format;

ghost use Rattle.std.specs.Prelude.{◌≡◌, ◌/◌, ◌<◌, length, get_or};
ghost use Rattle.sheet.specs.Line as line;
ghost use Rattle.walk_cells.specs.Cells as cells;

// The cells of a line.
pub const CELLS: usize = 6;

// The letter of line i.
#[tactic(auto, using(crate::specs::CellsLaws::letter_cell))]
pub fn letter(t: &[u32], i: usize) -> u32
    requires { i < length t.now / 6 }
    ensures { result ≡ line.letter (get_or (cells.lines_of t.now) i line.bad) }
{
    t[CELLS * i]
}

// Number k of line i.
#[tactic(auto, using(crate::specs::CellsLaws::number_cell))]
pub fn number(t: &[u32], i: usize, k: usize) -> u32
    requires { (i < length t.now / 6) × (k < 5) }
    ensures { result ≡ line.number (get_or (cells.lines_of t.now) i line.bad) k }
{
    t[CELLS * i + 1 + k]
}
