// Which fields are kept: `ctor_layouts`, in a table with an entry for each F line. A local field goes by
// the mark of its type, a field of an import by the number in its line.
#![tactic(auto)]

ghost use Rattle.std.specs.Prelude.{◌≡◌, suc, ◌≤◌, ◌<◌, length};
ghost use Rattle.meaning.specs.Program as program;
ghost use Rattle.meaning.specs.Rows as rows;
ghost use Rattle.table_access.specs.Tables as tables;
ghost use Rattle.keep_fields.specs.Keeps as keeps;

// Field f of an imported or a local declaration.
fn is_kept(t: &[u32], node: &[u8], f: usize, import: bool) -> bool
    requires tabled { tables.Tabled t.now }
    requires f_bound { (f < rows.count_of program.field_line (tables.lines_in t.now)) × keeps.Erased (tables.lines_in t.now) node.now }
    ensures { result ≡ keeps.field_kept (tables.lines_in t.now) f import }
{
    if import {
        return table_access::field_number(t, f, 2) != 0;
    }
    let y = table_access::field_number(t, f, 1) as usize;
    node[y] == 0
}

// The fields of declaration d.
fn put_fields(t: &[u32], node: &[u8], keep: &mut [u8], d: usize)
    requires tabled { tables.Tabled t.now }
    requires d_bound { (d < tables.decls_of (tables.lines_in t.now)) × keeps.Erased (tables.lines_in t.now) node.now }
    requires kept { keeps.Kept (tables.lines_in t.now) keep.old d }
    ensures { keeps.Kept (tables.lines_in t.now) keep.new (suc d) }
{
    let first = table_access::first_field(t, d);
    let end = table_access::first_field(t, d + 1);
    let import = table_access::is_import(t, d);
    for f in first..end {
        keep[f] = u8::from(is_kept(t, node, f, import));
    }
}

// The fields of every declaration.
pub fn keep_fields(t: &[u32], node: &[u8], keep: &mut [u8])
    requires tabled { tables.Tabled t.now }
    requires erased { keeps.Erased (tables.lines_in t.now) node.now × (rows.count_of program.field_line (tables.lines_in t.now) ≤ length keep.old) }
    ensures { keeps.Slotted (tables.lines_in t.now) keep.new }
{
    let n = table_access::decls(t);
    for d in 0..n {
        put_fields(t, node, keep, d);
    }
}
