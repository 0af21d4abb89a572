// The verdict sheet: a copy of the sheet, in which local declarations' D, F and V lines have single bytes changed, and their C lines get tags.
#![tactic(auto)]

mod overlay;

ghost use Rattle.std.specs.Prelude.{◌≡◌, suc, ◌≤◌, ◌<◌, length};
ghost use Rattle.sheet.specs.Format.{base};
ghost use Rattle.sheet.specs.Sheet.{lines};
ghost use Rattle.meaning.specs.Program.{field_line};
ghost use Rattle.meaning.specs.Rows.{count_of};
ghost use Rattle.answer.specs.Answer.{verdict_sheet, after};
ghost use Rattle.row4_limits.specs.Limits.{start};
ghost use Rattle.table_access.specs.Tables.{decls_of, lines_in};
ghost use Rattle.table_access.specs.OfSheet.{OfSheet};
ghost use Rattle.keep_fields.specs.Keeps.{Slotted};
ghost use Rattle.keep_layouts.specs.States.{Settled};
ghost use Rattle.left_laws.specs.Lefts.{Recorded};
ghost use Rattle.verdict_sheet.specs.Upto.{Known, Next, counts_before, Moved, upto};

use overlay::THIRD;
use sheet_parts::LINE;

// How many F and C lines of the sheet stand before a line.
#[derive(Clone, Copy)]
struct Counts {
    fields: usize,
    ctors: usize,
}

// Line i of a local declaration d, with the lines before it counted; and the counts with it. P and V lines are told by a comparison: of
// four letters that are tested one after the other the compiler would make a jump, which is foreseen less well.
fn put_line(
    s: &[u8],
    t: &[u32],
    u: &[u16],
    keep: &[u8],
    records: &[u8],
    out: &mut [u8],
    d: usize,
    i: usize,
    c: Counts,
) -> Counts
    requires known { Known s.now t.now u.now keep.now records.now }
    requires next { Next s.now out.old d i × (c ≡ counts_before (lines 6 s.now) i) }
    ensures { Moved s.now out.old out.new i result }
{
    let at = i * LINE;
    let letter = s[at];
    if letter > b'F' {
        if letter == b'V' {
            overlay::put_verdict(s, t, u, records, out, d, i);
            return c;
        }
        return c;
    }
    if letter == b'F' {
        let f = c.fields;
        out[at + THIRD] = b'0' + keep[f];
        let fields = f + 1;
        return Counts { fields, ..c };
    }
    if letter == b'C' {
        let k = c.ctors;
        let ctors = k + 1;
        overlay::put_tag(s, t, out, d, i, k);
        return Counts { ctors, ..c };
    }
    if letter == b'D' {
        out[at] = b'I';
        return c;
    }
    c
}

// The lines of declaration d; an import's stay.
fn put_decl(s: &[u8], t: &[u32], u: &[u16], keep: &[u8], records: &[u8], out: &mut [u8], d: usize)
    requires known { Known s.now t.now u.now keep.now records.now × (d < decls_of (lines 6 s.now)) }
    requires s_in_bounds { (length s.now ≤ length out.old) × (out.old ≡ upto s.now (start (lines 6 s.now) d) out.old) }
    ensures { out.new ≡ upto s.now (start (lines 6 s.now) (suc d)) out.old }
{
    if table_access::is_import(t, d) {
        return;
    }
    let end = table_access::line_of(t, d + 1);
    let start = table_access::line_of(t, d);
    let mut c = Counts {
        fields: table_access::first_field(t, d),
        ctors: table_access::first_ctor(t, d),
    };
    for i in start..end {
        c = put_line(s, t, u, keep, records, out, d, i, c);
    }
}

// The verdict sheet, at the front of an output.
pub fn put_verdicts(s: &[u8], t: &[u32], u: &[u16], keep: &[u8], records: &[u8], out: &mut [u8])
    requires of_sheet { OfSheet s.now t.now × Settled (lines_in t.now) u.now }
    requires slotted { Slotted (lines_in t.now) keep.now × (count_of field_line (lines_in t.now) ≤ length keep.now) }
    requires recorded { Recorded (lines_in t.now) records.now × (length s.now ≤ length out.old) }
    ensures { out.new ≡ after (verdict_sheet base (lines 6 s.now)) out.old }
{
    overlay::copy(s, out);
    let n = table_access::decls(t);
    for d in 0..n {
        put_decl(s, t, u, keep, records, out, d);
    }
}
