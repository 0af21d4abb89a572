// By what the rules of erasure judge a declaration: its flags, its body kind and its constructors say it.
ghost use Rattle.std.specs.Prelude.{◌≡◌, false, ◌<◌};
ghost use Rattle.meaning.specs.Program as program;
ghost use Rattle.table_access.specs.Tables as tables;
ghost use Rattle.erasure_laws.specs.Bodies as bodies;

use erasure_laws::Way;

// A variant: of no constructor erased, of one as its fields, of several kept.
fn variant_way(t: &[u32], d: usize) -> Way
    requires tabled { tables.Tabled t.now }
    requires d_bound { (d < tables.decls_of (tables.lines_in t.now)) × bodies.ByBody (tables.lines_in t.now) d × (bodies.kind_of (tables.lines_in t.now) d ≡ 3) }
    ensures { bodies.Way (tables.lines_in t.now) d result }
{
    let last = table_access::decl_number(t, d, 4);
    match last {
        0 => Way::Erased,
        1 => Way::AsFields,
        _ => Way::Kept,
    }
}

// By the body.
fn body_way(t: &[u32], d: usize) -> Way
    requires tabled { tables.Tabled t.now }
    requires d_bound { (d < tables.decls_of (tables.lines_in t.now)) × bodies.ByBody (tables.lines_in t.now) d }
    ensures { bodies.Way (tables.lines_in t.now) d result }
{
    let kind = table_access::decl_number(t, d, 2);
    match kind {
        1 => Way::AsType,
        2 => Way::AsFields,
        3 => variant_way(t, d),
        _ => Way::Kept,
    }
}

// By the flags, and then by the body.
pub fn way(t: &[u32], d: usize) -> Way
    requires tabled { tables.Tabled t.now }
    requires d_bound { (d < tables.decls_of (tables.lines_in t.now)) × (program.is program.import_line (tables.head_line (tables.lines_in t.now) d) ≡ false) }
    ensures { bodies.Way (tables.lines_in t.now) d result }
{
    let flags = table_access::decl_number(t, d, 1);
    if flags % 2 == 1 {
        return Way::Erased;
    }
    if flags / 2 % 2 == 1 {
        return Way::Kept;
    }
    body_way(t, d)
}
