// What the guard goes on through: the payloads of candidates, and the bodies of unfolded abbreviations, local and imported.
#![tactic(auto)]

ghost use Rattle.std.specs.Prelude.{◌≡◌, ◌<◌, length};
ghost use Rattle.table_access.specs.Tables as tables;
ghost use Rattle.collapse_candidates.specs.Candidates as candidates;
ghost use Rattle.collapse_passes.specs.Passes as passes;

// `Realized` and `NoUnfold` leave the name of declaration d.
pub fn stays(t: &[u32], d: usize) -> bool
    requires tabled { tables.Tabled t.now }
    requires d_bound { d < tables.decls_of (tables.lines_in t.now) }
    ensures { result ≡ passes.named (tables.lines_in t.now) d }
{
    let flags = table_access::decl_number(t, d, 1);
    if flags / 2 % 2 == 1 {
        return true;
    }
    flags / 8 % 2 == 1
}

// Declaration d is erased: an import by its layout, a local one by its mark.
fn erased(t: &[u32], decl: &[u8], d: usize) -> bool
    requires tabled { tables.Tabled t.now }
    requires d_bound { d < tables.decls_of (tables.lines_in t.now) }
    requires marked { candidates.Marked (tables.lines_in t.now) decl.now }
    ensures { result ≡ passes.is_erased (passes.laid (tables.lines_in t.now) d) }
{
    if table_access::is_import(t, d) {
        return table_access::verdict_number(t, d, 1) == 0;
    }
    decl[d] == 1
}

// The body of declaration d where it is an unfolded abbreviation, else the number of types.
fn abbreviation(t: &[u32], decl: &[u8], d: usize) -> u16
    requires tabled { tables.Tabled t.now }
    requires d_bound { d < tables.decls_of (tables.lines_in t.now) }
    requires marked { candidates.Marked (tables.lines_in t.now) decl.now }
    ensures { passes.abbreviates (tables.lines_in t.now) d ≡ passes.body_told (tables.lines_in t.now) d result }
{
    let none = table_access::types(t) as u16;
    if table_access::decl_number(t, d, 2) != 1 {
        return none;
    }
    if erased(t, decl, d) {
        return none;
    }
    if stays(t, d) {
        return none;
    }
    table_access::decl_number(t, d, 4) as u16
}

// The type that the guard goes on through at declaration d, whose payload as a candidate is F line f.
fn passed(t: &[u32], decl: &[u8], d: usize, f: u16) -> u16
    requires tabled { tables.Tabled t.now }
    requires d_bound { d < tables.decls_of (tables.lines_in t.now) }
    requires marked { candidates.Marked (tables.lines_in t.now) decl.now }
    requires candidate { candidates.Candidate (tables.lines_in t.now) d f }
    ensures { passes.passed_of (tables.lines_in t.now) d ≡ passes.body_told (tables.lines_in t.now) d result }
{
    if f == collapse_candidates::NONE {
        return abbreviation(t, decl, d);
    }
    collapse_candidates::payloads::payload(t, f as usize) as u16
}

// For each declaration this type, or the number of types where there is none.
pub fn passes(t: &[u32], decl: &[u8], fields: &[u16], bodies: &mut [u16])
    requires tabled { tables.Tabled t.now }
    requires marked { candidates.Marked (tables.lines_in t.now) decl.now }
    requires fields { candidates.Fields (tables.lines_in t.now) fields.now }
    requires bodies_len { length bodies.old ≡ tables.decls_of (tables.lines_in t.now) }
    ensures { passes.Passes (tables.lines_in t.now) bodies.new }
{
    for (d, body) in bodies.iter_mut().enumerate() {
        *body = passed(t, decl, d, fields[d]);
    }
}
