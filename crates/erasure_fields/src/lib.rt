// The fields of a declaration, in erasure. Marks only ever become 1, so a declaration's first kept field only moves on: it is kept
// for the next time, with the type that the declaration waits for.
#![tactic(auto)]

ghost use Rattle.std.specs.Prelude.{◌≡◌, ◌≤◌, ◌<◌, length};
ghost use Rattle.table_access.specs.Tables as tables;
ghost use Rattle.erasure_marks.specs.Marks as marks;
ghost use Rattle.erasure_laws.specs.Bodies as bodies;

use erasure_laws::{Field, Ruled};

// The first field from field `from` on that is kept, or `end`.
fn first_kept(
    t: &[u32],
    decl: &[u8],
    node: &mut [u8],
    member: &mut [u16],
    from: usize,
    end: usize,
    right: usize,
) -> Field
    requires tabled { tables.Tabled t.now }
    requires decl_len { length decl.now ≡ tables.decls_of (tables.lines_in t.now) }
    requires from_le_end { (from ≤ end) × bodies.Below (tables.lines_in t.now) end }
    requires marks { marks.Marks (tables.lines_in t.now) (marks.marks_of decl.now) node.old member.old right }
    ensures { bodies.Found (tables.lines_in t.now) (marks.marks_of decl.now) node.new member.new from end result }
{
    let mut low = right;
    for f in from..end {
        let y = table_access::field_number(t, f, 1) as usize;
        low = erasure_marks::mark_types(t, decl, node, member, low, y + 1);
        if node[y] == 0 {
            return Field {
                number: f,
                right: low,
            };
        }
    }
    Field {
        number: end,
        right: low,
    }
}

// The fields of declaration d are all erased.
pub fn fields_erased(
    t: &[u32],
    decl: &[u8],
    node: &mut [u8],
    member: &mut [u16],
    field: &mut [u16],
    wait: &mut [u16],
    d: usize,
    right: usize,
) -> Ruled
    requires tabled { tables.Tabled t.now }
    requires d_bound { (d < tables.decls_of (tables.lines_in t.now)) × bodies.ByFields (tables.lines_in t.now) d }
    requires state { bodies.State (tables.lines_in t.now) decl.now node.old member.old field.old wait.old right }
    ensures { bodies.Ruling (tables.lines_in t.now) decl.now node.new member.new field.new wait.new d result }
{
    let first = table_access::first_field(t, d);
    let end = table_access::first_field(t, d + 1);
    let from = first.max(field[d] as usize);
    let r = first_kept(t, decl, node, member, from, end, right);
    let f = r.number;
    let low = r.right;
    if f < end {
        field[d] = f as u16;
        wait[d] = table_access::field_number(t, f, 1) as u16;
        return Ruled {
            erased: false,
            right: low,
        };
    }
    Ruled {
        erased: true,
        right: low,
    }
}
