// Row 5 of a sheet's Q lines: the numbers of each line of its pattern are in range (FORMAT, section 12).
#![tactic(auto)]

mod pattern_lines;

ghost use Rattle.std.specs.Prelude.{◌≡◌, ◌≤◌, length};
ghost use Rattle.walk_cells.specs.Cells.{lines_of};
ghost use Rattle.sheet.specs.Sheet.{first};
ghost use Rattle.pattern_rows.specs.Links as links;

use walk_cells::CELLS;

// At most so many Q lines.
pub const PATTERNS: usize = 256;

// A link is 0, or the number plus one of a line.
pub const LINKS: usize = PATTERNS + 1;

// Row 5 of at most 256 Q lines, where there are so many names. The lines that a line passed names are kept, by their links.
pub fn row5(q: &[u32], names: usize) -> usize
    requires { length q.now ≤ 1536 }
    ensures { result ≡ first (links.row5 names (lines_of q.now)) (length (lines_of q.now)) }
{
    let n = q.len() / CELLS;
    let mut linked = [0u8; LINKS];
    for i in 0..n {
        if !pattern_lines::good_line(q, i, names, &linked) {
            return i;
        }
        let last = walk_cells::number(q, i, 2) as usize;
        let previous = walk_cells::number(q, i, 3) as usize;
        linked[last] = 1;
        linked[previous] = 1;
    }
    n
}
