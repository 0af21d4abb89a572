// The header and the index of a table, behind lines whose cells already stand in it: one walk over the declarations' lines.
#![tactic(auto)]

ghost use Rattle.std.specs.Prelude.{◌≡◌, true, suc, ◌+◌, ◌*◌, ◌≤◌, ◌<◌, length, get_or, set};
ghost use Rattle.number_columns.specs.Column.{pick};
ghost use Rattle.sheet.specs.Line.{letter};
ghost use Rattle.meaning.specs.Program as program;
ghost use Rattle.meaning.specs.Rows as rows;
ghost use Rattle.rows_header.specs.Header as header;
ghost use Rattle.table_access.specs.Tables as tables;
ghost use Rattle.table_sizes.specs.Sizing as sizing;
ghost use Rattle.table_sizes.specs.Filling as filling;
ghost use Rattle.table_index.specs.Index as index;

use table_access::{AT_BEGINS, AT_CTORS, AT_FIELDS, AT_NAMES, AT_PARAMS, HEADER, Sizes};

// How many declarations and how many P, C and F lines stand before a line.
#[derive(Clone, Copy)]
struct Seen {
    decls: usize,
    params: usize,
    ctors: usize,
    fields: usize,
}

// Where declaration c.decls begins, at line i.
fn put_begin(i: usize, c: Seen, t: &mut [u32])
    requires { index.Fits i c × (6 < length t.old) × (get_or t.old 6 0 + c.decls * 4 + 4 ≤ length t.old) }
    ensures { filling.Put t.old t.new (get_or t.old 6 0 + c.decls * 4) 4 (index.begin_of i c) }
{
    let at = t[AT_BEGINS] as usize + c.decls * 4;
    t[at] = i as u32;
    t[at + 1] = c.params as u32;
    t[at + 2] = c.ctors as u32;
    t[at + 3] = c.fields as u32;
}

// The numbers of line i are found at place j of the section whose place header cell h has.
fn put_place(h: usize, j: usize, i: usize, t: &mut [u32])
    requires { tables.Within t.old h j × (i < 65536) }
    ensures { t.new ≡ set t.old (get_or t.old h 0 + j) (tables.number_cell i) }
{
    let at = t[h] as usize;
    t[at + j] = (HEADER + 1 + 6 * i) as u32;
}

// Declaration c.decls, which begins at line i: where, and that the name is its.
fn put_decl(i: usize, c: Seen, t: &mut [u32]) -> Seen
    requires reached { index.Reached (tables.lines_in t.old) t.old i c }
    requires i_in_bounds { (i < length (tables.lines_in t.old)) × (program.is_head (rows.nth_line (tables.lines_in t.old) i) ≡ true) }
    ensures { index.Reached (tables.lines_in t.old) t.new (suc i) result }
{
    put_begin(i, c, t);
    let name = t[HEADER + 1 + i * 6] as usize;
    let at = t[AT_NAMES] as usize;
    t[at + name] = c.decls as u32;
    Seen {
        decls: c.decls + 1,
        ..c
    }
}

// Line i, an F or a C line. Its section is picked, and not jumped to: which of the two comes next cannot be foreseen.
fn put_member(field: bool, i: usize, c: Seen, t: &mut [u32]) -> Seen
    requires reached { index.Reached (tables.lines_in t.old) t.old i c }
    requires i_in_bounds { (i < length (tables.lines_in t.old)) × (letter (rows.nth_line (tables.lines_in t.old) i) ≡ pick field 70 67) }
    ensures { index.Reached (tables.lines_in t.old) t.new (suc i) result }
{
    let section = choices::pick(field, AT_FIELDS, AT_CTORS);
    let place = choices::pick(field, c.fields, c.ctors);
    let ctors = c.ctors + choices::pick(field, 0, 1);
    let fields = c.fields + choices::pick(field, 1, 0);
    put_place(section, place, i, t);
    Seen { ctors, fields, ..c }
}

// Line i, whose letter is after F.
fn put_later(i: usize, c: Seen, t: &mut [u32]) -> Seen
    requires reached { index.Reached (tables.lines_in t.old) t.old i c }
    requires i_in_bounds { (i < length (tables.lines_in t.old)) × (70 < letter (rows.nth_line (tables.lines_in t.old) i)) }
    ensures { index.Reached (tables.lines_in t.old) t.new (suc i) result }
{
    let letter = t[HEADER + i * 6];
    match letter {
        73 => put_decl(i, c, t),
        80 => {
            put_place(AT_PARAMS, c.params, i, t);
            Seen {
                params: c.params + 1,
                ..c
            }
        }
        _ => c,
    }
}

// Line i of a declaration.
fn put_line(i: usize, c: Seen, t: &mut [u32]) -> Seen
    requires reached { index.Reached (tables.lines_in t.old) t.old i c }
    requires i_in_bounds { (i < length (tables.lines_in t.old)) × header.Lettered (rows.nth_line (tables.lines_in t.old) i) }
    ensures { index.Reached (tables.lines_in t.old) t.new (suc i) result }
{
    let letter = t[HEADER + i * 6];
    if letter > 70 {
        return put_later(i, c, t);
    }
    if letter == 68 {
        return put_decl(i, c, t);
    }
    put_member(letter == 70, i, c, t)
}

// The lines of the declarations, which begin at line `from`, up to line n.
fn put_lines(from: usize, n: usize, t: &mut [u32])
    requires begun { index.Begun (tables.lines_in t.old) t.old }
    requires from_value { (from ≡ header.header (tables.lines_in t.old)) × (n ≡ length (tables.lines_in t.old)) }
    ensures { t.new ≡ tables.cells_of (tables.lines_in t.old) }
{
    let mut c = Seen {
        decls: 0,
        params: 0,
        ctors: 0,
        fields: 0,
    };
    for i in from..n {
        c = put_line(i, c, t);
    }
    put_begin(n, c, t);
}

// Fills the header and the index, behind lines whose cells already stand in the table.
pub fn fill(z: Sizes, t: &mut [u32])
    requires { index.Ready z t.old }
    ensures { tables.Tabled t.new × (tables.lines_in t.new ≡ sizing.lines_behind z t.old) }
{
    let names = z.names;
    let from = names + z.args + z.types;
    let lines = z.lines;
    table_sizes::put_header(z, t);
    let at = t[AT_NAMES] as usize;
    table_sizes::put_all(at, names, z.decls as u32, t);
    put_lines(from, lines, t);
}
