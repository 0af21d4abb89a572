// Row 6: names that are to differ, of a sheet that passed rows 1 to 5.
#![tactic(auto)]

mod repeats;
mod respellings;

ghost use Rattle.std.specs.Prelude.{◌≡◌, map, length};
ghost use Rattle.walk_cells.specs.Cells.{lines_of, bare};
ghost use Rattle.sheet.specs.Sheet as sheet;
ghost use Rattle.meaning.specs.Program.{name_line};
ghost use Rattle.meaning.specs.Rows as rows;
ghost use Rattle.rows_header.specs.Header.{header};
ghost use Rattle.row6_spellings.specs.Spellings.{Ranged};
ghost use Rattle.row6_distinct.specs.Ways as ways;

use repeats::{Groups, MEMBERS};
use row4_limits::NAMES;
use walk_cells::CELLS;

// The first line whose name an earlier line of its group has, or the count of lines; `from` is the
// line at which the declarations begin. Groups are counted from 1, and for each name the last group
// that has it is kept.
fn repeated(t: &[u32], from: usize) -> usize
    requires ranged { ways.Ranged (lines_of t.now) }
    requires from_value { from ≡ header (lines_of t.now) }
    ensures { result ≡ sheet.first (ways.repeated_any (lines_of t.now)) (length (lines_of t.now)) }
{
    let n = t.len() / CELLS;
    let mut declared = [0u16; NAMES];
    let mut params = [0u16; NAMES];
    let mut members = [0u16; MEMBERS];
    let mut g = Groups {
        params: 1,
        fields: 1,
    };
    for i in from..n {
        if repeats::repeats(t, i, g, &mut declared, &mut params, &mut members) {
            return i;
        }
        g = repeats::groups_after(t, i, g);
    }
    n
}

// Row 6: the first line that repeats an earlier one, or the count of lines; names is the count of N
// lines, and `from` the line at which the declarations begin. Spellings stand in the bytes, all else in the cells.
pub fn row6(s: &[u8], t: &[u32], names: usize, from: usize) -> usize
    requires ranged { Ranged s.now }
    requires t_value { lines_of t.now ≡ map bare (sheet.lines 6 s.now) }
    requires names_value { names ≡ rows.count_of name_line (sheet.lines 6 s.now) }
    requires from_value { from ≡ header (sheet.lines 6 s.now) }
    ensures { result ≡ sheet.first (rows.row6 (sheet.lines 6 s.now)) (sheet.count 6 s.now) }
{
    let spelled = respellings::respelled(s, names);
    let named = repeated(t, from);
    spelled.min(named)
}
