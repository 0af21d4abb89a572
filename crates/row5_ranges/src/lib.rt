// Row 5: the numbers of each line are in range (FORMAT, section 5). By sections: N,
// A and Y lines, and then the declarations.
#![tactic(auto)]

mod decl_lines;
mod type_lists;
mod types;
mod unused;

ghost use Rattle.std.specs.Prelude.{◌≡◌, ◌+◌, ◌/◌, ◌<◌, length};
ghost use Rattle.walk_cells.specs.Cells.{lines_of};
ghost use Rattle.sheet.specs.Sheet as sheet;
ghost use Rattle.meaning.specs.Rows as rows;
ghost use Rattle.rows_header.specs.Header.{Counted};
ghost use Rattle.row5_ranges.specs.Ranges.{good_arg};

use walk_cells::CELLS;

// The N lines: the first that is not as it should be, or the count of them.
fn names_good(t: &[u32], names: usize, args: usize, types: usize) -> usize
    requires { Counted (lines_of t.now) names args types }
    ensures { result ≡ sheet.first (rows.row5 (lines_of t.now)) names }
{
    for i in 0..names {
        if walk_cells::number(t, i, 0) as usize != i {
            return i;
        }
    }
    names
}

// A line i is as it should be.
fn good_arg(t: &[u32], i: usize, types: usize) -> bool
    requires { i < length t.now / 6 }
    ensures { result ≡ good_arg types (rows.nth_line (lines_of t.now) i) }
{
    if walk_cells::number(t, i, 0) as usize >= types {
        return false;
    }
    unused::zeros_from(t, i, 1)
}

// The A lines, after N lines that are as they should be.
fn args_good(t: &[u32], names: usize, args: usize, types: usize) -> usize
    requires counted { Counted (lines_of t.now) names args types }
    requires names_value { sheet.first (rows.row5 (lines_of t.now)) names ≡ names }
    ensures { result ≡ sheet.first (rows.row5 (lines_of t.now)) (names + args) }
{
    let end = names + args;
    for i in names..end {
        if !good_arg(t, i, types) {
            return i;
        }
    }
    end
}

// The Y lines, after those.
fn types_good(t: &[u32], names: usize, args: usize, types: usize) -> usize
    requires counted { Counted (lines_of t.now) names args types }
    requires args_value { sheet.first (rows.row5 (lines_of t.now)) (names + args) ≡ names + args }
    ensures { result ≡ sheet.first (rows.row5 (lines_of t.now)) (names + args + types) }
{
    let from = names + args;
    let end = from + types;
    for i in from..end {
        if !types::good_type(t, i, names, args, types, i - from) {
            return i;
        }
    }
    end
}

// The lines of declarations, after those.
fn parts_good(t: &[u32], names: usize, args: usize, types: usize) -> usize
    requires counted { Counted (lines_of t.now) names args types }
    requires types_value { sheet.first (rows.row5 (lines_of t.now)) (names + args + types) ≡ names + args + types }
    ensures { result ≡ sheet.first (rows.row5 (lines_of t.now)) (length (lines_of t.now)) }
{
    let n = t.len() / CELLS;
    for i in names + args + types..n {
        if !decl_lines::good_part(t, i, names, args, types) {
            return i;
        }
    }
    n
}

// Row 5 of a sheet that passed rows 2 and 3, which has so many N, A and Y lines.
pub fn row5(t: &[u32], names: usize, args: usize, types: usize) -> usize
    requires { Counted (lines_of t.now) names args types }
    ensures { result ≡ sheet.first (rows.row5 (lines_of t.now)) (length (lines_of t.now)) }
{
    let name = names_good(t, names, args, types);
    if name < names {
        return name;
    }
    let arg = args_good(t, names, args, types);
    if arg < names + args {
        return arg;
    }
    let kind = types_good(t, names, args, types);
    if kind < names + args + types {
        return kind;
    }
    parts_good(t, names, args, types)
}
