// The candidates for a newtype: local declarations that are not erased, without `NoNewtype`, of one constructor that keeps one field.
#![tactic(auto)]

pub mod payloads;

ghost use Rattle.std.specs.Prelude.{◌≡◌, ℕ, ◌<◌, length};
ghost use Rattle.std.proofs.Math.Option.{none};
ghost use Rattle.number_columns.specs.Column.{pick};
ghost use Rattle.model.specs.Layout as layout;
ghost use Rattle.meaning.specs.Program as program;
ghost use Rattle.table_access.specs.Tables as tables;
ghost use Rattle.keep_layouts.specs.Kept as kept;
ghost use Rattle.collapse_candidates.specs.Candidates as candidates;

// The number of no F line.
pub const NONE: u16 = 65535;

// Declaration d may collapse if it keeps one field: it is local, not erased and without `NoNewtype`.
fn may_collapse(t: &[u32], decl: &[u8], d: usize) -> bool
    requires tabled { tables.Tabled t.now }
    requires d_bound { d < tables.decls_of (tables.lines_in t.now) }
    requires marked { candidates.Marked (tables.lines_in t.now) decl.now }
    ensures { candidates.candidate_of (tables.lines_in t.now) d ≡ pick result (layout.newtype_of (kept.ctors_at (program.program (tables.lines_in t.now)) d)) none }
{
    if table_access::is_import(t, d) {
        return false;
    }
    if decl[d] == 1 {
        return false;
    }
    table_access::decl_number(t, d, 1) / 4 % 2 != 1
}

// The number of an F line, if any.
fn number(o: Option<usize>) -> u16
    requires { (f : ℕ) → o ≡ Some f → f < 65536 }
    ensures { result ≡ candidates.number_of o }
{
    match o {
        Some(f) => f as u16,
        None => NONE,
    }
}

// The F line of declaration d's payload where it is a candidate, else none.
fn candidate(t: &[u32], decl: &[u8], keep: &[u8], d: usize) -> u16
    requires tabled { tables.Tabled t.now }
    requires d_bound { d < tables.decls_of (tables.lines_in t.now) }
    requires ruled { candidates.Ruled (tables.lines_in t.now) decl.now keep.now }
    ensures { candidates.Candidate (tables.lines_in t.now) d result }
{
    if may_collapse(t, decl, d) {
        return number(collapse_newtypes::only_kept(t, keep, d));
    }
    NONE
}

// For each declaration this F line.
pub fn candidates(t: &[u32], decl: &[u8], keep: &[u8], fields: &mut [u16])
    requires tabled { tables.Tabled t.now }
    requires ruled { candidates.Ruled (tables.lines_in t.now) decl.now keep.now }
    requires fields_len { length fields.old ≡ tables.decls_of (tables.lines_in t.now) }
    ensures { candidates.Fields (tables.lines_in t.now) fields.new }
{
    for (d, field) in fields.iter_mut().enumerate() {
        *field = candidate(t, decl, keep, d);
    }
}
