// Layouts: `compute_layouts` over the table of a sheet that passed rows 1 to 7. An import has the layout of its V line; a local type's
// is chosen by its mark, its body, its candidate and the guard.
mod collapses;

ghost use Rattle.std.specs.Prelude.{◌≡◌, true, ◌≤◌, ◌<◌, length};
ghost use Rattle.sheet.specs.Format.{base};
ghost use Rattle.model.specs.Run as run;
ghost use Rattle.meaning.specs.Program as program;
ghost use Rattle.meaning.specs.Rows as rows;
ghost use Rattle.table_access.specs.Tables as tables;
ghost use Rattle.keep_fields.specs.Keeps as keeps;
ghost use Rattle.keep_layouts.specs.Layouts as layouts;
ghost use Rattle.collapse_candidates.specs.Candidates as candidates;
ghost use Rattle.collapse_verdicts.specs.Chosen as chosen;
ghost use Rattle.collapse_verdicts.specs.Laying as laying;

use keep_layouts::{Layout, Verdict};

// A local type that is not erased, by its body.
fn by_body(t: &[u32], fields: &[u16], found: &[u8], d: usize) -> Layout
    requires tabled { tables.Tabled t.now }
    requires d_bound { d < tables.decls_of (tables.lines_in t.now) }
    requires screened { chosen.Screened (tables.lines_in t.now) fields.now found.now }
    ensures { chosen.Chosen (tables.lines_in t.now) d (laying.of_body (tables.lines_in t.now) d) result }
{
    let kind = table_access::decl_number(t, d, 2);
    if kind == 0 {
        return Layout::Opaque;
    }
    if kind == 1 {
        return Layout::Abbreviation;
    }
    collapses::collapse(t, fields, found, d)
}

// An import, by its V line.
fn by_verdict(t: &[u32], keep: &[u8], d: usize) -> Layout
    requires tabled { tables.Tabled t.now }
    requires d_bound { (d < tables.decls_of (tables.lines_in t.now)) × (program.is program.import_line (tables.head_line (tables.lines_in t.now) d) ≡ true) }
    requires slotted { keeps.Slotted (tables.lines_in t.now) keep.now × (rows.count_of program.field_line (tables.lines_in t.now) ≤ length keep.now) }
    ensures { chosen.Chosen (tables.lines_in t.now) d (run.layout_of_decl (program.program (tables.lines_in t.now)) d) result }
{
    let n = table_access::verdict_number(t, d, 1);
    if n == 0 {
        return Layout::Erased;
    }
    if n == 1 {
        return collapses::by_kept(t, keep, d);
    }
    if n == 2 {
        return Layout::Struct;
    }
    if n == 3 {
        if table_access::decl_number(t, d, 2) == 1 {
            return Layout::Abbreviation;
        }
    }
    Layout::Opaque
}

// The layout of declaration d.
fn layout_of(t: &[u32], decl: &[u8], keep: &[u8], fields: &[u16], found: &[u8], d: usize) -> Layout
    requires tabled { tables.Tabled t.now }
    requires d_bound { d < tables.decls_of (tables.lines_in t.now) }
    requires ruled { candidates.Ruled (tables.lines_in t.now) decl.now keep.now }
    requires screened { chosen.Screened (tables.lines_in t.now) fields.now found.now }
    ensures { chosen.Chosen (tables.lines_in t.now) d (run.layout_of_decl (program.program (tables.lines_in t.now)) d) result }
{
    if table_access::is_import(t, d) {
        return by_verdict(t, keep, d);
    }
    if decl[d] == 1 {
        return Layout::Erased;
    }
    by_body(t, fields, found, d)
}

// The verdicts on all declarations, one after the other.
fn lay_out(
    t: &[u32],
    decl: &[u8],
    keep: &[u8],
    fields: &[u16],
    found: &[u8],
    blank: [Verdict; 96],
) -> [Verdict; 96]
    requires tabled_in { tables.TabledIn base t.now }
    requires ruled { candidates.Ruled (tables.lines_in t.now) decl.now keep.now }
    requires screened { chosen.Screened (tables.lines_in t.now) fields.now found.now }
    requires blank_len { length blank ≡ 96 }
    ensures { layouts.Laid (tables.lines_in t.now) result }
{
    let mut verdicts = blank;
    for d in 0..decl.len() {
        let l = layout_of(t, decl, keep, fields, found, d);
        verdicts[d] = Verdict {
            erased: decl[d] == 1,
            layout: l,
        };
    }
    verdicts
}

// Verdicts that say nothing yet.
fn blank() -> [Verdict; 96]
    ensures { length result ≡ 96 }
{
    let none = Verdict {
        erased: false,
        layout: Layout::Opaque,
    };
    [none; 96]
}

// The verdict on every declaration.
pub fn compute_layouts(
    t: &[u32],
    decl: &[u8],
    keep: &[u8],
    fields: &[u16],
    found: &[u8],
) -> [Verdict; 96]
    requires tabled_in { tables.TabledIn base t.now }
    requires ruled { candidates.Ruled (tables.lines_in t.now) decl.now keep.now }
    requires screened { chosen.Screened (tables.lines_in t.now) fields.now found.now }
    ensures { layouts.Laid (tables.lines_in t.now) result }
{
    lay_out(t, decl, keep, fields, found, blank())
}
