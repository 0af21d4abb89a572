// Rows 2 to 7 of a sheet, and on acceptance the table of its declarations and the cells of its Q lines: what every call begins with,
// whatever it writes.
#![tactic(auto)]

ghost use Rattle.std.specs.Prelude.{◌≡◌, false, ◌+◌, ◌*◌, ◌≤◌, length};
ghost use Rattle.sheet.specs.Format.{base};
ghost use Rattle.sheet.specs.Sheet.{count, row1};
ghost use Rattle.input_table.specs.Table.{Checked, Filled, Refuses, Breaks, refused_front, Fronted};

use answer::Refusal;
use row4_limits::Counts;
use sheet_parts::LINE;
use table_access::HEADER;
use walk_cells::CELLS;

// The refusal of rows 2 to 7, and of an accepted sheet the lines before its Q lines and the cells of their table.
#[derive(Clone, Copy)]
pub struct Front {
    pub refusal: Refusal,
    pub lines: usize,
    pub cells: usize,
}

// A refusal has no table.
fn refuse(code: u32, place: usize) -> Front
    ensures { result ≡ refused_front code place }
{
    Front {
        refusal: Refusal::Refused { code, place },
        lines: 0,
        cells: 0,
    }
}

// The table of declarations that passed rows 1 to 7, whose lines are counted: how many cells it has.
fn filled(a: &[u8], c: Counts, t: &mut [u32]) -> usize
    requires { Checked a.now t.old c }
    ensures { Filled a.now t.old t.new result }
{
    let n = a.len() / LINE;
    let sizes = table_sizes::sizes(t, n, c.names, c.args, c.types, c.decls, c.ctors, c.fields);
    let m = table_sizes::cells(sizes);
    table_index::fill(sizes, &mut t[0..m]);
    m
}

// A sheet whose Q lines begin at line m: the rows of its declarations and of its Q lines, whose cells stand behind the table's room.
fn parted(s: &[u8], m: usize, t: &mut [u32]) -> Front
    requires { Breaks s.now (length t.old) m }
    ensures { Fronted s.now t.new result }
{
    let at = m * LINE;
    let a = &s[0..at];
    let z = &s[at..s.len()];
    let end = HEADER + m * CELLS;
    let checked = rows_refusals::check_rows(a, &mut t[HEADER..end]);
    let refusal = checked.refusal;
    let counts = checked.counts;
    let room = 8 * m + 16;
    let last = room + z.len() / LINE * CELLS;
    let all = rows_patterns::check(a, z, refusal, &mut t[room..last]);
    match all {
        Refusal::Accepted => {
            let cells = filled(a, counts, &mut t[0..room]);
            Front {
                refusal: Refusal::Accepted,
                lines: m,
                cells,
            }
        }
        Refusal::Refused { code, place } => refuse(code, place),
    }
}

// A sheet that rows 2 to 7 refuse as if it had no Q lines: where the line that is out of order is a Q line, its Q lines begin there.
fn refused(s: &[u8], t: &mut [u32], code: u32, place: usize) -> Front
    requires { Refuses s.now (length t.old) code place }
    ensures { Fronted s.now t.new result }
{
    if code != 3 {
        return refuse(code, place);
    }
    if place == s.len() / LINE {
        return refuse(code, place);
    }
    if s[place * LINE] != b'Q' {
        return refuse(code, place);
    }
    parted(s, place, t)
}

// Rows 2 to 7 of a sheet that passed row 1. There are eight cells for each line, and 16 for the header and the end.
pub fn tabled(s: &[u8], t: &mut [u32]) -> Front
    requires { (row1 base s.now ≡ false) × (8 * count 6 s.now + 16 ≤ length t.old) }
    ensures { Fronted s.now t.new result }
{
    let n = s.len() / LINE;
    let end = HEADER + n * CELLS;
    let checked = rows_refusals::check_rows(s, &mut t[HEADER..end]);
    let refusal = checked.refusal;
    let counts = checked.counts;
    match refusal {
        Refusal::Accepted => {
            let cells = filled(s, counts, t);
            Front {
                refusal: Refusal::Accepted,
                lines: n,
                cells,
            }
        }
        Refusal::Refused { code, place } => refused(s, t, code, place),
    }
}
