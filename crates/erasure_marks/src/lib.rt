// Which types are erased, by the marks of declarations: `cty_erased` of one type after the other, each by the marks of lower types.
// Marks of declarations only ever become 1, so the first kept member of a tuple only moves on: its place is kept for the next time.
#![tactic(auto)]

ghost use Rattle.std.specs.Prelude.{◌≡◌, ◌&&◌, not, ◌+◌, ◌≤◌, ◌<◌, eqb, length, get_or};
ghost use Rattle.model.specs.Erasure as model;
ghost use Rattle.meaning.specs.Program as program;
ghost use Rattle.meaning.specs.Rows as rows;
ghost use Rattle.table_access.specs.Tables as tables;
ghost use Rattle.erasure_marks.specs.Marks as marks;

// The first member of a list from member `from` on whose mark is 0, or the count of members.
fn first_kept(t: &[u32], node: &[u8], first: usize, count: usize, from: usize) -> usize
    requires tabled { tables.Tabled t.now }
    requires listed { marks.Listed (tables.lines_in t.now) node.now first count × (from ≤ count) }
    ensures { marks.Found (tables.lines_in t.now) node.now first count from result }
{
    for j in from..count {
        let y = table_access::arg(t, first + j);
        if node[y] == 0 {
            return j;
        }
    }
    count
}

// A tuple of erased members.
fn tuple_erased(t: &[u32], node: &[u8], member: &mut [u16], y: usize) -> bool
    requires tabled { tables.Tabled t.now }
    requires tuple { marks.Tuple (tables.lines_in t.now) node.now member.old y }
    ensures { marks.Tupled (tables.lines_in t.now) node.now member.old member.new y result }
{
    let first = table_access::type_number(t, y, 1) as usize;
    let count = table_access::type_number(t, y, 2) as usize;
    let from = member[y] as usize;
    let j = first_kept(t, node, first, count, from);
    member[y] = j as u16;
    j == count
}

// A name is erased as its declaration is; a foreign one is not.
fn name_erased(t: &[u32], decl: &[u8], n: usize) -> bool
    requires tabled { tables.Tabled t.now }
    requires n_bound { (n < rows.count_of program.name_line (tables.lines_in t.now)) × (length decl.now ≡ tables.decls_of (tables.lines_in t.now)) }
    ensures { result ≡ model.marked (program.program (tables.lines_in t.now)) (marks.marks_of decl.now) n }
{
    let d = table_access::decl_of(t, n);
    if d < decl.len() {
        return decl[d] == 1;
    }
    false
}

// An arrow with a pure effect and an erased result; its argument is not looked at.
fn arrow_erased(t: &[u32], node: &[u8], y: usize) -> bool
    requires tabled { tables.Tabled t.now }
    requires y_bound { (y < rows.count_of program.type_line (tables.lines_in t.now)) × (marks.part (tables.lines_in t.now) y 3 < length node.now) }
    ensures { result ≡ (model.is_pure (marks.part (tables.lines_in t.now) y 2) && eqb (get_or node.now (marks.part (tables.lines_in t.now) y 3) 0) 1) }
{
    let effect = table_access::type_number(t, y, 2);
    let result = table_access::type_number(t, y, 3) as usize;
    (effect != 2) & (node[result] == 1)
}

// Layout's `cty_erased` of type y, by the marks of lower types and of declarations.
fn cty_erased(t: &[u32], decl: &[u8], node: &[u8], member: &mut [u16], y: usize) -> bool
    requires tabled { tables.Tabled t.now }
    requires y_bound { (y < rows.count_of program.type_line (tables.lines_in t.now)) × (length decl.now ≡ tables.decls_of (tables.lines_in t.now)) }
    requires marks { marks.Marks (tables.lines_in t.now) (marks.marks_of decl.now) node.now member.old y }
    ensures { marks.Marked (tables.lines_in t.now) (marks.marks_of decl.now) node.now member.new y result }
{
    let kind = table_access::type_number(t, y, 0);
    match kind {
        0 => true,
        7 => arrow_erased(t, node, y),
        8 => name_erased(t, decl, table_access::type_number(t, y, 1) as usize),
        9 => tuple_erased(t, node, member, y),
        12 => node[table_access::type_number(t, y, 1) as usize] == 1,
        1..=11 => false,
        _ => false,
    }
}

// Makes the marks of the types below `end` right, where those below `right` are.
pub fn mark_types(
    t: &[u32],
    decl: &[u8],
    node: &mut [u8],
    member: &mut [u16],
    right: usize,
    end: usize,
) -> usize
    requires tabled { tables.Tabled t.now }
    requires end_bound { (end ≤ rows.count_of program.type_line (tables.lines_in t.now)) × (length decl.now ≡ tables.decls_of (tables.lines_in t.now)) }
    requires marks { marks.Marks (tables.lines_in t.now) (marks.marks_of decl.now) node.old member.old right }
    ensures { marks.Marks (tables.lines_in t.now) (marks.marks_of decl.now) node.new member.new result × (end ≤ result) }
{
    for y in right..end {
        node[y] = u8::from(cty_erased(t, decl, node, member, y));
    }
    right.max(end)
}
