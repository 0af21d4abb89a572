// Row 5: the numbers of a line of a declaration.
ghost use Rattle.std.specs.Prelude.{◌≡◌, ◌+◌, ◌/◌, ◌≤◌, ◌<◌, length};
ghost use Rattle.sheet.specs.Line.{letter};
ghost use Rattle.walk_cells.specs.Cells.{lines_of};
ghost use Rattle.meaning.specs.Rows as rows;
ghost use Rattle.rows_header.specs.Header.{Counted};
ghost use Rattle.row5_ranges.specs.DeclLines.{good_last, good_member};

use crate::unused::zeros_from;

// The flags' sum is at most this.
const FLAGS: usize = 31;

// The last number of a D or I line, by its body kind.
fn good_last(kind: u32, last: usize, types: usize) -> bool
    ensures { result ≡ good_last kind last types }
{
    match kind {
        0 => last == 0,
        1 => last < types,
        _ => true,
    }
}

// The name, the flags and the last number of a D or I line.
#[tactic(auto, unfolding(meaning::specs::Rows::good_head))]
fn good_head(t: &[u32], i: usize, names: usize, types: usize) -> bool
    requires { i < length t.now / 6 }
    ensures { result ≡ rows.good_head names types (rows.nth_line (lines_of t.now) i) }
{
    let name = walk_cells::number(t, i, 0) as usize;
    let flags = walk_cells::number(t, i, 1) as usize;
    let last = walk_cells::number(t, i, 4) as usize;
    let kind = walk_cells::number(t, i, 2);
    (name < names) & (flags <= FLAGS) & good_last(kind, last, types)
}

// A C or F line. What is tested is picked by the letter, and not jumped to: which of the two comes next cannot be foreseen.
fn good_member(t: &[u32], i: usize, field: bool, names: usize, types: usize) -> bool
    requires { i < length t.now / 6 }
    ensures { result ≡ good_member field names types (rows.nth_line (lines_of t.now) i) }
{
    let name = walk_cells::number(t, i, 0) as usize;
    let second = walk_cells::number(t, i, 1) as usize;
    let tested = choices::pick(field, second, 0);
    let end = choices::pick(field, types, 1);
    if tested >= end {
        return false;
    }
    let unused = (walk_cells::number(t, i, 3) == 0) & (walk_cells::number(t, i, 4) == 0);
    (name < names) & unused
}

// A line whose letter is after F, of a declaration.
#[tactic(auto, unfolding(meaning::specs::Rows::good_numbers))]
fn good_later(t: &[u32], i: usize, names: usize, args: usize, types: usize) -> bool
    requires counted { Counted (lines_of t.now) names args types }
    requires types_bound { (names + args + types ≤ i) × (i < length t.now / 6) × (70 < letter (rows.nth_line (lines_of t.now) i)) }
    ensures { result ≡ rows.good_numbers (lines_of t.now) i }
{
    let letter = walk_cells::letter(t, i);
    match letter {
        73 => good_head(t, i, names, types),
        80 => ((walk_cells::number(t, i, 0) as usize) < names) & zeros_from(t, i, 1),
        _ => zeros_from(t, i, 3),
    }
}

// Line i, of a declaration, is as it should be, by its letter.
#[tactic(auto, unfolding(meaning::specs::Rows::good_numbers))]
pub fn good_part(t: &[u32], i: usize, names: usize, args: usize, types: usize) -> bool
    requires counted { Counted (lines_of t.now) names args types }
    requires types_bound { (names + args + types ≤ i) × (i < length t.now / 6) }
    ensures { result ≡ rows.good_numbers (lines_of t.now) i }
{
    let letter = walk_cells::letter(t, i);
    if letter > 70 {
        return good_later(t, i, names, args, types);
    }
    if letter == 68 {
        return good_head(t, i, names, types);
    }
    good_member(t, i, letter == 70, names, types)
}
