// Row 13 of a sheet's Q lines: a `PCtor` of a declared constructor has a part for each of its declared fields (FORMAT, section 12).
#![tactic(auto)]

ghost use Rattle.std.specs.Prelude.{◌≡◌, true, List, ◌/◌, ◌≤◌, ◌<◌, length};
ghost use Rattle.walk_cells.specs.Cells.{lines_of};
ghost use Rattle.sheet.specs.Sheet.{first};
ghost use Rattle.model.specs.Decl.{Decl};
ghost use Rattle.meaning.specs.Rows.{nth_line};
ghost use Rattle.meaning_patterns.specs.Patterns as patterns;
ghost use Rattle.pattern_rows.specs.Links as links;
ghost use Rattle.pattern_counts.specs.Counts as counts;

use pattern_rows::LINKS;
use walk_cells::CELLS;

// A `PCtor`'s kind.
const CTOR: u32 = 3;

// Line i is a `PCtor` of a declared constructor with another number of parts.
fn miscounted(q: &[u32], i: usize, fields: &[u16], ends: &[u16; LINKS]) -> bool
    requires i_in_bounds { (i < length q.now / 6) × (i < 256) }
    requires i_value { patterns.good_pattern (length fields.now) (lines_of q.now) i ≡ true }
    ensures { result ≡ counts.miscounted fields.now ends.now (nth_line (lines_of q.now) i) }
{
    if walk_cells::number(q, i, 0) != CTOR {
        return false;
    }
    let name = walk_cells::number(q, i, 1) as usize;
    let last = walk_cells::number(q, i, 2) as usize;
    let declared = fields[name];
    if declared == 0 {
        return false;
    }
    ends[last] != declared - 1
}

// Row 13 of at most 256 Q lines that passed row 5. For each name there is 0 where no constructor has it, else the number of the
// constructor's fields plus one. For each link the number of parts of the list that it ends is kept.
pub fn row13(q: &[u32], fields: &[u16]) -> usize
    requires q_len_bound { length q.now ≤ 1536 }
    requires q_value { first (links.row5 (length fields.now) (lines_of q.now)) (length (lines_of q.now)) ≡ length (lines_of q.now) }
    ensures { (ds : List Decl) → counts.Fielded ds fields.now → result ≡ first (patterns.row13 ds (lines_of q.now)) (length (lines_of q.now)) }
{
    let n = q.len() / CELLS;
    let mut ends = [0u16; LINKS];
    for i in 0..n {
        if miscounted(q, i, fields, &ends) {
            return i;
        }
        let previous = walk_cells::number(q, i, 3) as usize;
        ends[i + 1] = ends[previous] + 1;
    }
    n
}
