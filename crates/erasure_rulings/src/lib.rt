// `dtype_erased` of a declaration: by its lines alone, by the type that it abbreviates, or by its fields.
#![tactic(auto)]

mod ways;

ghost use Rattle.std.specs.Prelude.{◌≡◌, false, ◌<◌};
ghost use Rattle.meaning.specs.Program as program;
ghost use Rattle.meaning.specs.Rows as rows;
ghost use Rattle.table_access.specs.Tables as tables;
ghost use Rattle.erasure_laws.specs.Bodies as bodies;

use erasure_laws::{Ruled, Way};

// The type that declaration d abbreviates is erased.
fn abbrev_erased(
    t: &[u32],
    decl: &[u8],
    node: &mut [u8],
    member: &mut [u16],
    field: &mut [u16],
    wait: &mut [u16],
    d: usize,
    right: usize,
) -> Ruled
    requires tabled { tables.Tabled t.now }
    requires d_bound { (d < tables.decls_of (tables.lines_in t.now)) × bodies.ByType (tables.lines_in t.now) d × (bodies.last_of (tables.lines_in t.now) d < rows.count_of program.type_line (tables.lines_in t.now)) }
    requires state { bodies.State (tables.lines_in t.now) decl.now node.old member.old field.old wait.old right }
    ensures { bodies.Ruling (tables.lines_in t.now) decl.now node.new member.new field.new wait.new d result }
{
    let y = table_access::decl_number(t, d, 4) as usize;
    let low = erasure_marks::mark_types(t, decl, node, member, right, y + 1);
    if node[y] == 0 {
        wait[d] = y as u16;
        return Ruled {
            erased: false,
            right: low,
        };
    }
    Ruled {
        erased: true,
        right: low,
    }
}

// Layout's `dtype_erased` of a local declaration.
pub fn dtype_erased(
    t: &[u32],
    decl: &[u8],
    node: &mut [u8],
    member: &mut [u16],
    field: &mut [u16],
    wait: &mut [u16],
    d: usize,
    right: usize,
) -> Ruled
    requires tabled { tables.Tabled t.now }
    requires d_bound { (d < tables.decls_of (tables.lines_in t.now)) × (program.is program.import_line (tables.head_line (tables.lines_in t.now) d) ≡ false) }
    requires state { bodies.State (tables.lines_in t.now) decl.now node.old member.old field.old wait.old right }
    ensures { bodies.Ruling (tables.lines_in t.now) decl.now node.new member.new field.new wait.new d result }
{
    match ways::way(t, d) {
        Way::Erased => Ruled {
            erased: true,
            right,
        },
        Way::Kept => Ruled {
            erased: false,
            right,
        },
        Way::AsType => abbrev_erased(t, decl, node, member, field, wait, d, right),
        Way::AsFields => {
            erasure_fields::fields_erased(t, decl, node, member, field, wait, d, right)
        }
    }
}
