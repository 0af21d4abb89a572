// Row 1, of any bytes: the size of a sheet.
ghost use Rattle.std.specs.Prelude.{◌≡◌};
ghost use Rattle.sheet.specs.Format.{base};
ghost use Rattle.sheet.specs.Sheet as sheet;

use sheet_parts::LINE;

// The lines of the longest sheet.
const LINES: usize = 2048;

// Row 1: too many bytes, or not whole lines.
#[tactic(auto, unfolding(sheet::specs::Sheet::row1))]
pub fn row1(s: &[u8]) -> bool
    ensures { result ≡ sheet.row1 base s.now }
{
    s.len() > LINE * LINES || s.len() % LINE != 0
}
