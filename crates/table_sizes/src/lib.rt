// How many lines of each kind there are and how many cells their table needs; its header, and cells of one value.
#![tactic(auto)]

ghost use Rattle.std.specs.Prelude.{◌≡◌, ◌++◌, ◌+◌, ◌≤◌, ◌<◌, length, drop};
ghost use Rattle.table_access.specs.Tables as tables;
ghost use Rattle.table_sizes.specs.Sizing as sizing;
ghost use Rattle.table_sizes.specs.Filling as filling;

use table_access::{
    AT_ARGS, AT_BEGINS, AT_CTORS, AT_FIELDS, AT_NAMES, AT_PARAMS, AT_TYPES, DECLS, HEADER, LINES,
    NAMES, Sizes, TYPES,
};

// How many lines there are of each kind, given what is counted for the limits: the others are V lines, one for each declaration, and P lines.
pub fn sizes(
    t: &[u32],
    lines: usize,
    names: usize,
    args: usize,
    types: usize,
    decls: usize,
    ctors: usize,
    fields: usize,
) -> Sizes
    requires { sizing.Counted (sizing.behind lines t.now) lines names args types decls ctors fields }
    ensures { result ≡ tables.sizes_of (sizing.behind lines t.now) }
{
    let params = lines - (names + args + types + decls * 2 + ctors + fields);
    Sizes {
        lines,
        names,
        args,
        types,
        decls,
        params,
        ctors,
        fields,
    }
}

// How many cells the table has.
pub fn cells(z: Sizes) -> usize
    requires { tables.cell_count z < 262144 }
    ensures { result ≡ tables.cell_count z }
{
    HEADER + 6 * z.lines + (z.decls + 1) * 4 + z.params + z.ctors + z.fields + z.names
}

// The header of a table of these sizes, in its first cells.
pub fn put_header(z: Sizes, t: &mut [u32])
    requires z_bound { (tables.cell_count z < 262144) × (z.names + z.args + z.types ≤ z.lines) }
    requires t_len { length t.old ≡ tables.cell_count z }
    ensures { t.new ≡ tables.header z ++ drop 11 t.old }
{
    let begins = HEADER + 6 * z.lines;
    let params = begins + (z.decls + 1) * 4;
    let ctors = params + z.params;
    let fields = ctors + z.ctors;
    let names = fields + z.fields;
    t[TYPES] = z.types as u32;
    t[DECLS] = z.decls as u32;
    t[NAMES] = z.names as u32;
    t[LINES] = z.lines as u32;
    t[AT_ARGS] = (HEADER + 1 + 6 * z.names) as u32;
    t[AT_TYPES] = (HEADER + 1 + 6 * (z.names + z.args)) as u32;
    t[AT_BEGINS] = begins as u32;
    t[AT_PARAMS] = params as u32;
    t[AT_CTORS] = ctors as u32;
    t[AT_FIELDS] = fields as u32;
    t[AT_NAMES] = names as u32;
}

// The n cells from `at` on are all v.
pub fn put_all(at: usize, n: usize, v: u32, t: &mut [u32])
    requires { at + n ≤ length t.old }
    ensures { filling.Put t.old t.new at n (filling.all v) }
{
    t[at..at + n].fill(v);
}
