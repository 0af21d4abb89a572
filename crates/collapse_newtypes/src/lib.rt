// What makes a declaration a candidate for a newtype: one constructor that keeps one field.
#![tactic(auto)]

ghost use Rattle.std.specs.Prelude.{◌≡◌, true, ℕ, ◌-◌, ◌≤◌, ◌<◌, length};
ghost use Rattle.model.specs.Layout as layout;
ghost use Rattle.meaning.specs.Program as program;
ghost use Rattle.meaning.specs.Rows as rows;
ghost use Rattle.table_access.specs.Tables as tables;
ghost use Rattle.keep_fields.specs.Keeps as keeps;
ghost use Rattle.keep_layouts.specs.Kept as kept;
ghost use Rattle.collapse_newtypes.specs.Newtypes as newtypes;

// Declaration d has one constructor: a record counts as one.
pub fn one_ctor(t: &[u32], d: usize) -> bool
    requires tabled { tables.Tabled t.now }
    requires d_bound { d < tables.decls_of (tables.lines_in t.now) }
    ensures { result ≡ newtypes.one_ctor (tables.lines_in t.now) d }
{
    let kind = table_access::decl_number(t, d, 2);
    if kind == 2 {
        return true;
    }
    if kind == 3 {
        return table_access::decl_number(t, d, 4) == 1;
    }
    false
}

// The constructor's name of declaration d, which has one: a record's is the type's.
pub fn ctor_of(t: &[u32], d: usize) -> usize
    requires tabled { tables.Tabled t.now }
    requires d_bound { (d < tables.decls_of (tables.lines_in t.now)) × (newtypes.one_ctor (tables.lines_in t.now) d ≡ true) }
    ensures { (result ≡ newtypes.ctor_told (tables.lines_in t.now) d) × (result < 2048) }
{
    if table_access::decl_number(t, d, 2) == 2 {
        return table_access::decl_number(t, d, 0) as usize;
    }
    table_access::ctor_number(t, table_access::first_ctor(t, d), 0) as usize
}

// The first kept field of those from `from` on and before `end`, or `end`.
fn next_kept(keep: &[u8], from: usize, end: usize) -> usize
    requires { (from ≤ end) × (end ≤ length keep.now) }
    ensures { newtypes.Next keep.now from end result }
{
    for f in from..end {
        if keep[f] == 1 {
            return f;
        }
    }
    end
}

// The only kept field of those, by its F line.
fn only_in(keep: &[u8], from: usize, end: usize) -> Option<usize>
    requires { (from ≤ end) × (end ≤ length keep.now) }
    ensures { result ≡ newtypes.only (newtypes.kept_places keep.now from (end - from)) }
{
    let f = next_kept(keep, from, end);
    if f == end {
        return None;
    }
    let second = next_kept(keep, f + 1, end);
    if second < end {
        return None;
    }
    Some(f)
}

// The F line of the only kept field of declaration d, where it has one constructor (a record counts as one) and keeps one field.
pub fn only_kept(t: &[u32], keep: &[u8], d: usize) -> Option<usize>
    requires tabled { tables.Tabled t.now }
    requires d_bound { (d < tables.decls_of (tables.lines_in t.now)) × keeps.Slotted (tables.lines_in t.now) keep.now × (rows.count_of program.field_line (tables.lines_in t.now) ≤ length keep.now) }
    ensures { (layout.newtype_of (kept.ctors_at (program.program (tables.lines_in t.now)) d) ≡ newtypes.only_told (tables.lines_in t.now) d result)
        × ((f : ℕ) → result ≡ Some f → (f < rows.count_of program.field_line (tables.lines_in t.now))
        × (tables.first_of program.field_line (tables.lines_in t.now) d ≤ f)
        × (newtypes.one_ctor (tables.lines_in t.now) d ≡ true)) }
{
    if one_ctor(t, d) {
        return only_in(
            keep,
            table_access::first_field(t, d),
            table_access::first_field(t, d + 1),
        );
    }
    None
}
