// Row 5: the kind and the numbers of a Y line.
ghost use Rattle.std.specs.Prelude.{◌≡◌, ◌/◌, ◌<◌, length};
ghost use Rattle.walk_cells.specs.Cells.{lines_of};
ghost use Rattle.sheet.specs.Line.{number};
ghost use Rattle.meaning.specs.Rows as rows;
ghost use Rattle.rows_header.specs.Header.{Counted};
ghost use Rattle.row5_ranges.specs.TypeLists.{types_of};

use crate::type_lists::is_list;
use crate::unused::zeros_from;

// Number k of line i.
fn number_at(t: &[u32], i: usize, k: usize) -> usize
    requires { (i < length t.now / 6) × (k < 5) }
    ensures { (result ≡ number (rows.nth_line (lines_of t.now) i) k) × (result < 4294967296) }
{
    walk_cells::number(t, i, k) as usize
}

// The kind and the numbers of Y line i, for type y; a number is read where its kind has it.
#[tactic(auto, unfolding(meaning::specs::Rows::good_type))]
pub fn good_type(t: &[u32], i: usize, names: usize, args: usize, types: usize, y: usize) -> bool
    requires counted { Counted (lines_of t.now) names args types }
    requires i_in_bounds { i < length t.now / 6 }
    ensures { result ≡ rows.good_type names (types_of (lines_of t.now)) y (rows.nth_line (lines_of t.now) i) }
{
    let kind = walk_cells::number(t, i, 0);
    match kind {
        3 => (number_at(t, i, 1) < names) & zeros_from(t, i, 2),
        4 => {
            (number_at(t, i, 1) <= 1)
                & row5_widths::is_width(number_at(t, i, 2))
                & zeros_from(t, i, 3)
        }
        5 => (number_at(t, i, 1) <= 3) & zeros_from(t, i, 2),
        6 => zeros_from(t, i, 2),
        7 => {
            (number_at(t, i, 1) < y)
                & (number_at(t, i, 2) <= 2)
                & (number_at(t, i, 3) < y)
                & zeros_from(t, i, 4)
        }
        8 => {
            let at = number_at(t, i, 2);
            let k = number_at(t, i, 3);
            (number_at(t, i, 1) < names)
                & is_list(t, names, args, types, y, at, k)
                & zeros_from(t, i, 4)
        }
        9 => {
            let at = number_at(t, i, 1);
            let k = number_at(t, i, 2);
            is_list(t, names, args, types, y, at, k) & zeros_from(t, i, 3)
        }
        11 => (number_at(t, i, 1) <= 1) & (number_at(t, i, 2) < y) & zeros_from(t, i, 3),
        0..=2 => zeros_from(t, i, 1),
        10..=12 => (number_at(t, i, 1) < y) & zeros_from(t, i, 2),
        _ => false,
    }
}
