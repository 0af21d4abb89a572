// Row 5 for one Q line, part by part: a link's line is looked at where it is a lower one.
ghost use Rattle.std.specs.Prelude.{◌≡◌, ◌/◌, ◌<◌, length};
ghost use Rattle.walk_cells.specs.Cells.{lines_of};
ghost use Rattle.meaning.specs.Rows.{nth_line};
ghost use Rattle.meaning_patterns.specs.Patterns as patterns;
ghost use Rattle.pattern_rows.specs.Links as links;

use crate::LINKS;
use walk_cells::CELLS;

// The highest kind of a line.
const KINDS: u32 = 6;

// The number of line i, by its kind.
fn good_name(q: &[u32], i: usize, names: usize) -> bool
    requires { i < length q.now / 6 }
    ensures { result ≡ patterns.good_name names (nth_line (lines_of q.now) i) }
{
    let kind = walk_cells::number(q, i, 0);
    let name = walk_cells::number(q, i, 1) as usize;
    match kind {
        1 => name < names,
        2 => true,
        3 => name < names,
        4 => name < names,
        _ => name == 0,
    }
}

// A link of line i: none, or to a lower line that is not named yet.
fn good_link(linked: &[u8; LINKS], i: usize, k: usize) -> bool
    requires { i < 256 }
    ensures { result ≡ links.free_link linked.now i k }
{
    k == 0 || (k <= i && linked[k] == 0)
}

// The last part of line i, by the line's kind and the part's field.
fn good_last(q: &[u32], i: usize) -> bool
    requires { (i < length q.now / 6) × links.Lower (nth_line (lines_of q.now) i) i }
    ensures { result ≡ patterns.good_last (lines_of q.now) (nth_line (lines_of q.now) i) }
{
    let kind = walk_cells::number(q, i, 0);
    let last = walk_cells::number(q, i, 2) as usize;
    if kind <= 2 {
        return last == 0;
    }
    if last == 0 {
        return true;
    }
    let field = walk_cells::number(q, last - 1, 4);
    if kind == 4 {
        return field != 0;
    }
    field == 0
}

// The part before line i in its list, by both fields.
fn good_previous(q: &[u32], i: usize) -> bool
    requires { (i < length q.now / 6) × links.Lower (nth_line (lines_of q.now) i) i }
    ensures { result ≡ patterns.good_previous (lines_of q.now) (nth_line (lines_of q.now) i) }
{
    let previous = walk_cells::number(q, i, 3) as usize;
    if previous == 0 {
        return true;
    }
    let field = walk_cells::number(q, i, 4);
    let before = walk_cells::number(q, previous - 1, 4);
    if field == 0 {
        return before == 0;
    }
    before != 0
}

// The last line is the whole, and so no part.
fn good_whole(q: &[u32], i: usize) -> bool
    requires { i < length q.now / 6 }
    ensures { result ≡ links.good_whole (lines_of q.now) i }
{
    if i + 1 != q.len() / CELLS {
        return true;
    }
    (walk_cells::number(q, i, 3) == 0) & (walk_cells::number(q, i, 4) == 0)
}

// Both links of line i, which name two lines where they name any.
fn good_links(q: &[u32], i: usize, linked: &[u8; LINKS]) -> bool
    requires i_in_bounds { (i < length q.now / 6) × (i < 256) }
    requires marked { links.Marked (lines_of q.now) i linked.now }
    ensures { result ≡ links.good_links (lines_of q.now) i }
{
    let last = walk_cells::number(q, i, 2) as usize;
    let previous = walk_cells::number(q, i, 3) as usize;
    let free = good_link(linked, i, last) & good_link(linked, i, previous);
    free & ((last == 0) | (last != previous))
}

// The other numbers of line i.
fn good_own(q: &[u32], i: usize, names: usize) -> bool
    requires { i < length q.now / 6 }
    ensures { result ≡ links.good_own names (nth_line (lines_of q.now) i) }
{
    let kind = walk_cells::number(q, i, 0);
    let field = walk_cells::number(q, i, 4) as usize;
    (kind <= KINDS) & good_name(q, i, names) & (field <= names)
}

// The lines that line i names, which are lower ones.
fn good_parts(q: &[u32], i: usize) -> bool
    requires { (i < length q.now / 6) × links.Lower (nth_line (lines_of q.now) i) i }
    ensures { result ≡ links.good_parts (lines_of q.now) i }
{
    good_previous(q, i) & good_last(q, i) & good_whole(q, i)
}

// Line i: its links are looked at before the lines that they name.
pub fn good_line(q: &[u32], i: usize, names: usize, linked: &[u8; LINKS]) -> bool
    requires i_in_bounds { (i < length q.now / 6) × (i < 256) }
    requires marked { links.Marked (lines_of q.now) i linked.now }
    ensures { result ≡ patterns.good_pattern names (lines_of q.now) i }
{
    if !good_links(q, i, linked) {
        return false;
    }
    good_own(q, i, names) & good_parts(q, i)
}
