// The record number of each declaration, read off what is left of it.
#![tactic(auto)]

ghost use Rattle.std.specs.Prelude.{◌≡◌, ◌+◌, ◌-◌, ◌≤◌, ◌<◌, length};
ghost use Rattle.meaning.specs.Program.{field_line};
ghost use Rattle.meaning.specs.Rows.{count_of};
ghost use Rattle.table_access.specs.Tables as tables;
ghost use Rattle.left_laws.specs.Lefts.{Ready, Flagged, Recorded};
ghost use Rattle.left_records.specs.Records.{some_kept, record_by};

use form_node_words::state;

// One of the fields from F line `from` on, up to F line `end`, is kept.
fn any_kept(keep: &[u8], from: usize, end: usize) -> bool
    requires { (from ≤ end) × (end ≤ length keep.now) }
    ensures { result ≡ some_kept keep.now from (end - from) }
{
    keep[from..end].contains(&1)
}

// The record number of declaration d.
fn record_of(t: &[u32], u: &[u16], keep: &[u8], left: &[u8], d: usize) -> bool
    requires tabled { tables.Tabled t.now × (d < tables.decls_of (tables.lines_in t.now)) }
    requires t_in_bounds { (count_of field_line (tables.lines_in t.now) ≤ length keep.now) × (d < length left.now) }
    ensures { result ≡ record_by (tables.lines_in t.now) u.now keep.now left.now d }
{
    if left[d] == 0 {
        return false;
    }
    let flags = table_access::decl_number(t, d, 1);
    if flags / 2 % 2 == 1 {
        return flags / 16 % 2 == 1;
    }
    if state(u, d) == 1 {
        return false;
    }
    if table_access::decl_number(t, d, 2) != 3 {
        return false;
    }
    if table_access::decl_number(t, d, 4) != 1 {
        return false;
    }
    any_kept(
        keep,
        table_access::first_field(t, d),
        table_access::first_field(t, d + 1),
    )
}

// A cell for each declaration.
pub fn records(t: &[u32], u: &[u16], f: &[u64], keep: &[u8], left: &[u8], records: &mut [u8])
    requires ready { Ready (tables.lines_in t.now) t.now u.now f.now keep.now × Flagged (tables.lines_in t.now) left.now }
    requires t_in_bounds { (count_of field_line (tables.lines_in t.now) ≤ length keep.now) × (tables.decls_of (tables.lines_in t.now) ≤ length records.old) }
    ensures { Recorded (tables.lines_in t.now) records.new }
{
    let n = table_access::decls(t);
    for d in 0..n {
        records[d] = u8::from(record_of(t, u, keep, left, d));
    }
}
