// What the passes after row 7 read of a sheet, from one table of cells: the lines, and where each stands that is asked for by its number.
// `Tabled` says what the cells mean; every contract below is an equation with the lines that stand in the table.
#![tactic(auto)]

ghost use Rattle.std.specs.Prelude.{◌≡◌, ◌+◌, ◌≤◌, ◌<◌, length, get_or};
ghost use Rattle.sheet.specs.Line as line;
ghost use Rattle.model.specs.Decl as decl;
ghost use Rattle.meaning.specs.Program as program;
ghost use Rattle.meaning.specs.Rows as rows;
ghost use Rattle.row4_limits.specs.Limits as limits;
ghost use Rattle.table_access.specs.Tables as tables;

// How many lines there are, and of each kind.
#[derive(Clone, Copy)]
pub struct Sizes {
    pub lines: usize,
    pub names: usize,
    pub args: usize,
    pub types: usize,
    pub decls: usize,
    pub params: usize,
    pub ctors: usize,
    pub fields: usize,
}

// The header's cells: counts, and where sections begin.
pub const TYPES: usize = 0;

pub const DECLS: usize = 1;

pub const NAMES: usize = 2;

pub const LINES: usize = 3;

pub const AT_ARGS: usize = 4;

pub const AT_TYPES: usize = 5;

pub const AT_BEGINS: usize = 6;

pub const AT_PARAMS: usize = 7;

pub const AT_CTORS: usize = 8;

pub const AT_FIELDS: usize = 9;

pub const AT_NAMES: usize = 10;

// The cells of the header, behind which the lines stand.
pub const HEADER: usize = 11;

// Cell j of the section whose place header cell h has.
fn cell(t: &[u32], h: usize, j: usize) -> u32
    requires { tables.Within t.now h j }
    ensures { result ≡ tables.cell_at t.now h j }
{
    let at = t[h] as usize;
    t[at + j]
}

// Number k of the line whose place cell j of that section is.
fn placed(t: &[u32], h: usize, j: usize, k: usize) -> u32
    requires { tables.Within t.now h j × (tables.cell_at t.now h j + k < length t.now) }
    ensures { result ≡ get_or t.now (tables.cell_at t.now h j + k) 0 }
{
    let at = cell(t, h, j) as usize;
    t[at + k]
}

// Number k of line i.
fn line_number(t: &[u32], i: usize, k: usize) -> u32
    requires tabled { tables.Tabled t.now }
    requires i_in_bounds { (i < length (tables.lines_in t.now)) × (k < 5) }
    ensures { result ≡ line.number (rows.nth_line (tables.lines_in t.now) i) k }
{
    t[HEADER + 1 + i * 6 + k]
}

// How many Y lines there are.
pub fn types(t: &[u32]) -> usize
    requires { tables.Tabled t.now }
    ensures { result ≡ rows.count_of program.type_line (tables.lines_in t.now) }
{
    t[TYPES] as usize
}

// How many declarations there are.
pub fn decls(t: &[u32]) -> usize
    requires { tables.Tabled t.now }
    ensures { result ≡ tables.decls_of (tables.lines_in t.now) }
{
    t[DECLS] as usize
}

// How many N lines there are.
pub fn names(t: &[u32]) -> usize
    requires { tables.Tabled t.now }
    ensures { result ≡ rows.count_of program.name_line (tables.lines_in t.now) }
{
    t[NAMES] as usize
}

// Number k of Y line y, its kind for k = 0.
pub fn type_number(t: &[u32], y: usize, k: usize) -> u32
    requires tabled { tables.Tabled t.now }
    requires y_bound { (y < rows.count_of program.type_line (tables.lines_in t.now)) × (k < 4) }
    ensures { result ≡ line.number (tables.nth program.type_line (tables.lines_in t.now) y) k }
{
    cell(t, AT_TYPES, y * 6 + k)
}

// The type of A line i.
pub fn arg(t: &[u32], i: usize) -> usize
    requires tabled { tables.Tabled t.now }
    requires i_bound { i < rows.count_of program.arg_line (tables.lines_in t.now) }
    ensures { result ≡ line.number (tables.nth program.arg_line (tables.lines_in t.now) i) 0 }
{
    cell(t, AT_ARGS, i * 6) as usize
}

// The line at which declaration d begins, and for the number of declarations the count of lines.
pub fn line_of(t: &[u32], d: usize) -> usize
    requires tabled { tables.Tabled t.now }
    requires d_bound { d ≤ tables.decls_of (tables.lines_in t.now) }
    ensures { result ≡ limits.start (tables.lines_in t.now) d }
{
    cell(t, AT_BEGINS, d * 4) as usize
}

// Number k of declaration d's D or I line: its name, flags, body kind, count of parameters and last number.
pub fn decl_number(t: &[u32], d: usize, k: usize) -> u32
    requires tabled { tables.Tabled t.now }
    requires d_bound { (d < tables.decls_of (tables.lines_in t.now)) × (k < 5) }
    ensures { result ≡ line.number (tables.head_line (tables.lines_in t.now) d) k }
{
    let i = line_of(t, d);
    line_number(t, i, k)
}

// Declaration d is imported.
pub fn is_import(t: &[u32], d: usize) -> bool
    requires tabled { tables.Tabled t.now }
    requires d_bound { d < tables.decls_of (tables.lines_in t.now) }
    ensures { result ≡ program.is program.import_line (tables.head_line (tables.lines_in t.now) d) }
{
    let i = line_of(t, d);
    t[HEADER + i * 6] == 73
}

// The number of declaration d's first P line, and for the number of declarations that of all P lines.
pub fn first_param(t: &[u32], d: usize) -> usize
    requires tabled { tables.Tabled t.now }
    requires d_bound { d ≤ tables.decls_of (tables.lines_in t.now) }
    ensures { result ≡ tables.first_of program.param_line (tables.lines_in t.now) d }
{
    cell(t, AT_BEGINS, d * 4 + 1) as usize
}

// The number of declaration d's first C line.
pub fn first_ctor(t: &[u32], d: usize) -> usize
    requires tabled { tables.Tabled t.now }
    requires d_bound { d ≤ tables.decls_of (tables.lines_in t.now) }
    ensures { result ≡ tables.first_of program.ctor_line (tables.lines_in t.now) d }
{
    cell(t, AT_BEGINS, d * 4 + 2) as usize
}

// The number of declaration d's first F line; its last stands before the next declaration's first.
pub fn first_field(t: &[u32], d: usize) -> usize
    requires tabled { tables.Tabled t.now }
    requires d_bound { d ≤ tables.decls_of (tables.lines_in t.now) }
    ensures { result ≡ tables.first_of program.field_line (tables.lines_in t.now) d }
{
    cell(t, AT_BEGINS, d * 4 + 3) as usize
}

// Number k of declaration d's V line, its last: erased, layout.
pub fn verdict_number(t: &[u32], d: usize, k: usize) -> u32
    requires tabled { tables.Tabled t.now }
    requires d_bound { (d < tables.decls_of (tables.lines_in t.now)) × (k < 2) }
    ensures { result ≡ line.number (tables.nth program.verdict_line (tables.lines_in t.now) d) k }
{
    let end = line_of(t, d + 1);
    line_number(t, end - 1, k)
}

// The name of P line p.
pub fn param(t: &[u32], p: usize) -> usize
    requires tabled { tables.Tabled t.now }
    requires p_bound { p < rows.count_of program.param_line (tables.lines_in t.now) }
    ensures { result ≡ line.number (tables.nth program.param_line (tables.lines_in t.now) p) 0 }
{
    placed(t, AT_PARAMS, p, 0) as usize
}

// Number k of C line c: its name, its count of fields.
pub fn ctor_number(t: &[u32], c: usize, k: usize) -> u32
    requires tabled { tables.Tabled t.now }
    requires c_bound { (c < rows.count_of program.ctor_line (tables.lines_in t.now)) × (k < 2) }
    ensures { result ≡ line.number (tables.nth program.ctor_line (tables.lines_in t.now) c) k }
{
    placed(t, AT_CTORS, c, k)
}

// Number k of F line f: its name, its type, its keep.
pub fn field_number(t: &[u32], f: usize, k: usize) -> u32
    requires tabled { tables.Tabled t.now }
    requires f_bound { (f < rows.count_of program.field_line (tables.lines_in t.now)) × (k < 3) }
    ensures { result ≡ line.number (tables.nth program.field_line (tables.lines_in t.now) f) k }
{
    placed(t, AT_FIELDS, f, k)
}

// The declaration of name n, the number of declarations where the name is foreign.
pub fn decl_of(t: &[u32], n: usize) -> usize
    requires tabled { tables.Tabled t.now }
    requires n_bound { n < rows.count_of program.name_line (tables.lines_in t.now) }
    ensures { result ≡ decl.position (program.program (tables.lines_in t.now)) n }
{
    cell(t, AT_NAMES, n) as usize
}
