// Row 5: the lists of types that Y lines may have.
ghost use Rattle.std.specs.Prelude.{◌≡◌, ◌<◌};
ghost use Rattle.walk_cells.specs.Cells.{lines_of};
ghost use Rattle.meaning.specs.Rows as rows;
ghost use Rattle.rows_header.specs.Header.{Counted};
ghost use Rattle.row5_ranges.specs.TypeLists.{types_of};

// The list of k A lines from A line `at` on is one that type y can use.
pub fn is_list(
    t: &[u32],
    names: usize,
    args: usize,
    types: usize,
    y: usize,
    at: usize,
    k: usize,
) -> bool
    requires counted { Counted (lines_of t.now) names args types }
    requires at_bound { (at < 4294967296) × (k < 4294967296) }
    ensures { result ≡ rows.is_list (types_of (lines_of t.now)) y at k }
{
    if k == 0 {
        return at == 0;
    }
    if at + k > args {
        return false;
    }
    let from = names + at;
    for j in 0..k {
        if walk_cells::number(t, from + j, 0) as usize >= y {
            return false;
        }
    }
    true
}
