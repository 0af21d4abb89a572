// What becomes of a part of a `PRecord`, by its field and what becomes of the record's type: as a flag, by which it is dropped,
// kept, or lost, which is to say dropped and its names not freed.
#![tactic(auto)]

ghost use Rattle.std.specs.Prelude.{◌≡◌, ◌+◌, ◌-◌, ◌≤◌, ◌<◌, length};
ghost use Rattle.walk_cells.specs.Cells.{lines_of};
ghost use Rattle.meaning.specs.Program.{field_line};
ghost use Rattle.meaning.specs.Rows.{count_of};
ghost use Rattle.table_access.specs.Tables as tables;
ghost use Rattle.pattern_laws.specs.Linked.{Linked};
ghost use Rattle.pattern_laws.specs.Marks as marks;
ghost use Rattle.pattern_records.specs.Records as by;

use collapse_newtypes::one_ctor;
use form_node_words::state;

// The flags. Numbers and no enum: the contract of `record_flag`, which may not change, tells a number.
pub const DROPPED: u8 = 0;

pub const KEPT: u8 = 1;

pub const LOST: u8 = 2;

// F line f is kept, and x is its name plus one.
fn keeps_name(t: &[u32], keep: &[u8], f: usize, x: u32) -> bool
    requires tabled { tables.Tabled t.now }
    requires f_bound { (f < count_of field_line (tables.lines_in t.now)) × (f < length keep.now) }
    ensures { result ≡ by.keeps_name (tables.lines_in t.now) keep.now f x }
{
    if keep[f] != 1 {
        return false;
    }
    x != 0 && table_access::field_number(t, f, 0) == x - 1
}

// One of the F lines from line `from` on and before line `end` is.
fn names_kept(t: &[u32], keep: &[u8], from: usize, end: usize, x: u32) -> bool
    requires tabled { tables.Tabled t.now }
    requires end_bound { (end ≤ count_of field_line (tables.lines_in t.now)) × (end ≤ length keep.now) }
    ensures { result ≡ by.names_kept (tables.lines_in t.now) keep.now from (end - from) x }
{
    for f in from..end {
        if keeps_name(t, keep, f, x) {
            return true;
        }
    }
    false
}

// One of the F lines of declaration d is.
fn decl_names(t: &[u32], keep: &[u8], d: usize, x: u32) -> bool
    requires tabled { tables.Tabled t.now × (d < tables.decls_of (tables.lines_in t.now)) }
    requires t_in_bounds { count_of field_line (tables.lines_in t.now) ≤ length keep.now }
    ensures { result ≡ by.decl_names (tables.lines_in t.now) keep.now d x }
{
    let from = table_access::first_field(t, d);
    let end = table_access::first_field(t, d + 1);
    names_kept(t, keep, from, end, x)
}

// A part of the list that a link ends has the field f. A walk ends at the nearest such part: so the walks from all parts of one
// field in a list are together no longer than the list.
fn has_field(q: &[u32], link: usize, f: u32) -> bool
    requires { Linked (lines_of q.now) × (link ≤ length (lines_of q.now)) }
    ensures { result ≡ marks.has_field f (marks.fields_to (lines_of q.now) link) }
{
    // A while and no for: the step is not one, but from a part to the part before it in the list.
    let mut k = link;
    while k != 0 {
        if walk_cells::number(q, k - 1, 4) == f {
            return true;
        }
        k = walk_cells::number(q, k - 1, 3) as usize;
    }
    false
}

// A part with the field f of a record of declaration d, which is a newtype, behind the part that a link names: the first of the
// kept field stands for the record, and others of it are lost.
fn newtype_flag(t: &[u32], keep: &[u8], q: &[u32], d: usize, link: usize, f: u32) -> u8
    requires reading { by.Reading t.now keep.now d }
    requires linked { Linked (lines_of q.now) × (link ≤ length (lines_of q.now)) }
    ensures { result ≡ by.newtype_flag (tables.lines_in t.now) keep.now (lines_of q.now) d link f }
{
    if !decl_names(t, keep, d, f) {
        return DROPPED;
    }
    if has_field(q, link, f) {
        return LOST;
    }
    KEPT
}

// The same of a struct: of a struct of one constructor the parts of kept fields are kept.
fn struct_flag(t: &[u32], keep: &[u8], d: usize, f: u32) -> u8
    requires { by.Reading t.now keep.now d }
    ensures { result ≡ by.struct_flag (tables.lines_in t.now) keep.now d f }
{
    if one_ctor(t, d) {
        return u8::from(decl_names(t, keep, d, f));
    }
    KEPT
}

// The same of any declaration, or of none.
pub fn record_flag(
    t: &[u32],
    keep: &[u8],
    u: &[u16],
    q: &[u32],
    d: usize,
    link: usize,
    f: u32,
) -> u8
    requires tabled { tables.Tabled t.now × (d ≤ tables.decls_of (tables.lines_in t.now)) × (count_of field_line (tables.lines_in t.now) ≤ length keep.now) }
    requires linked { Linked (lines_of q.now) × (link ≤ length (lines_of q.now)) }
    ensures { result ≡ by.record_flag (tables.lines_in t.now) keep.now u.now (lines_of q.now) d link f }
{
    if d == table_access::decls(t) {
        return KEPT;
    }
    match state(u, d) {
        0 => DROPPED,
        1 => newtype_flag(t, keep, q, d, link, f),
        _ => struct_flag(t, keep, d, f),
    }
}
