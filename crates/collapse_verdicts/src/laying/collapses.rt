// Newtypes: what a candidate or an imported newtype becomes.
ghost use Rattle.std.specs.Prelude.{◌≡◌, true, ◌≤◌, ◌<◌, length};
ghost use Rattle.meaning.specs.Program as program;
ghost use Rattle.meaning.specs.Rows as rows;
ghost use Rattle.table_access.specs.Tables as tables;
ghost use Rattle.keep_fields.specs.Keeps as keeps;
ghost use Rattle.collapse_newtypes.specs.Newtypes as newtypes;
ghost use Rattle.collapse_verdicts.specs.Chosen as chosen;

use keep_layouts::Layout;

// The newtype of declaration d whose payload is F line f.
fn newtype(t: &[u32], d: usize, f: u16) -> Layout
    requires tabled { tables.Tabled t.now }
    requires d_bound { (d < tables.decls_of (tables.lines_in t.now)) × (newtypes.one_ctor (tables.lines_in t.now) d ≡ true) }
    ensures { result ≡ chosen.newtype (tables.lines_in t.now) d f }
{
    Layout::Newtype {
        ctor: collapse_newtypes::ctor_of(t, d) as u16,
        field: f,
    }
}

// A local type with constructors: a candidate that is not dropped collapses.
pub fn collapse(t: &[u32], fields: &[u16], found: &[u8], d: usize) -> Layout
    requires tabled { tables.Tabled t.now }
    requires d_bound { d < tables.decls_of (tables.lines_in t.now) }
    requires screened { chosen.Screened (tables.lines_in t.now) fields.now found.now }
    ensures { chosen.Chosen (tables.lines_in t.now) d (chosen.collapsed (tables.lines_in t.now) d) result }
{
    if found[d] == 1 {
        return Layout::Struct;
    }
    let f = fields[d];
    if f == collapse_candidates::NONE {
        return Layout::Struct;
    }
    newtype(t, d, f)
}

// An imported newtype, by its only kept field.
pub fn by_kept(t: &[u32], keep: &[u8], d: usize) -> Layout
    requires tabled { tables.Tabled t.now }
    requires d_bound { (d < tables.decls_of (tables.lines_in t.now)) × keeps.Slotted (tables.lines_in t.now) keep.now × (rows.count_of program.field_line (tables.lines_in t.now) ≤ length keep.now) }
    ensures { chosen.Chosen (tables.lines_in t.now) d (chosen.kept_one (tables.lines_in t.now) d) result }
{
    match collapse_newtypes::only_kept(t, keep, d) {
        Some(f) => newtype(t, d, f as u16),
        None => Layout::Struct,
    }
}
