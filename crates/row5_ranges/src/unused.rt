// Row 5: the numbers that a line does not use are 0.
ghost use Rattle.std.specs.Prelude.{◌≡◌, ◌/◌, ◌<◌, length};
ghost use Rattle.walk_cells.specs.Cells.{lines_of};
ghost use Rattle.meaning.specs.Rows as rows;

// The numbers of a line.
const NUMBERS: usize = 5;

// The numbers of line i from number k on are 0.
pub fn zeros_from(t: &[u32], i: usize, k: usize) -> bool
    requires { i < length t.now / 6 }
    ensures { result ≡ rows.zeros_from k (rows.nth_line (lines_of t.now) i) }
{
    for j in k..NUMBERS {
        if walk_cells::number(t, i, j) != 0 {
            return false;
        }
    }
    true
}
