// What becomes of each declaration's name, in two cells, from its verdict.
#![tactic(auto)]

ghost use Rattle.std.specs.Prelude.{◌≡◌, ◌+◌, ◌*◌, ◌<◌, length};
ghost use Rattle.sheet.specs.Format.{base};
ghost use Rattle.number_columns.specs.Column.{pick};
ghost use Rattle.table_access.specs.Tables as tables;
ghost use Rattle.keep_layouts.specs.Layouts as layouts;
ghost use Rattle.keep_layouts.specs.States as states;
ghost use Rattle.collapse_passes.specs.Passes as passes;
ghost use Rattle.state_names.specs.Cells as cells;

use keep_layouts::{Layout, Verdict};

// The first cell of an abbreviation: it is unfolded, or its name stays.
fn abbreviation(t: &[u32], d: usize) -> u16
    requires tabled { tables.Tabled t.now }
    requires d_bound { d < tables.decls_of (tables.lines_in t.now) }
    ensures { result ≡ pick (passes.named (tables.lines_in t.now) d) 3 2 }
{
    if collapse_passes::stays(t, d) { 3 } else { 2 }
}

// The cells of declaration d, from its layout: how its name is replaced, and by which Y line.
fn cells(t: &[u32], l: Layout, d: usize) -> (u16, u16)
    requires tabled { tables.Tabled t.now }
    requires d_bound { d < tables.decls_of (tables.lines_in t.now) }
    requires known { cells.Known (tables.lines_in t.now) d l }
    ensures { cells.Told (tables.lines_in t.now) d l result.0 result.1 }
{
    match l {
        Layout::Erased => (0, 0),
        Layout::Newtype { ctor: _, field } => (
            1,
            collapse_candidates::payloads::payload(t, field as usize) as u16,
        ),
        Layout::Struct => (3, 0),
        Layout::Abbreviation => (
            abbreviation(t, d),
            table_access::decl_number(t, d, 4) as u16,
        ),
        Layout::Opaque => (3, 0),
    }
}

// Puts them.
fn put_state(t: &[u32], l: Layout, u: &mut [u16], d: usize)
    requires tabled { tables.Tabled t.now }
    requires d_bound { (d < tables.decls_of (tables.lines_in t.now)) × (2 * d + 1 < length u.old) }
    requires known { cells.Known (tables.lines_in t.now) d l }
    ensures { cells.Put (tables.lines_in t.now) d l u.old u.new }
{
    let (state, body) = cells(t, l, d);
    u[2 * d] = state;
    u[2 * d + 1] = body;
}

// The cells of every declaration.
pub fn states(t: &[u32], vs: [Verdict; 96], u: &mut [u16])
    requires tabled_in { tables.TabledIn base t.now }
    requires laid { layouts.Laid (tables.lines_in t.now) vs }
    requires u_len { length u.old ≡ 2 * tables.decls_of (tables.lines_in t.now) }
    ensures { states.Settled (tables.lines_in t.now) u.new }
{
    for d in 0..table_access::decls(t) {
        put_state(t, vs[d].layout, u, d);
    }
}
