// The verdict sheet over a copy of the sheet: the copy, a C line and a V line. `upto` says what stands in the output when some lines are written.
ghost use Rattle.std.specs.Prelude.{◌≡◌, ◌++◌, suc, ◌*◌, ◌≤◌, ◌<◌, length, drop, get_or};
ghost use Rattle.sheet.specs.Sheet.{lines};
ghost use Rattle.model.specs.Decl as decl;
ghost use Rattle.model.specs.Run.{layout_of_decl};
ghost use Rattle.meaning.specs.Program.{ctor_line, program};
ghost use Rattle.meaning.specs.Rows.{count_before};
ghost use Rattle.table_access.specs.Tables.{decls_of, lines_in, Tabled};
ghost use Rattle.table_access.specs.OfSheet.{OfSheet};
ghost use Rattle.keep_layouts.specs.States.{Settled};
ghost use Rattle.left_laws.specs.Lefts.{Recorded};
ghost use Rattle.verdict_sheet.specs.Upto.{Next, upto};

use sheet_parts::{COLUMNS, LINE};

// The sheet's bytes at the front of an output.
pub fn copy(s: &[u8], out: &mut [u8])
    requires { length s.now ≤ length out.old }
    ensures { out.new ≡ s.now ++ drop (length s.now) out.old }
{
    let n = s.len();
    sheet_copier::copy_lines(&mut out[0..n], s);
}

// The places of a line's first three numbers, where each has one digit.
pub const FIRST: usize = 6;

pub const SECOND: usize = 12;

pub const THIRD: usize = 18;

// Where the columns of the third begin.
const TAG: usize = 13;

// The C line i of a local declaration d, before which c C lines stand in the sheet: its tag number, which is one more than its place
// among the declaration's constructors. An only constructor has no tag.
pub fn put_tag(s: &[u8], t: &[u32], out: &mut [u8], d: usize, i: usize, c: usize)
    requires of_sheet { OfSheet s.now t.now × Next s.now out.old d i }
    requires i_value { (get_or s.now (i * 32) 0 ≡ 67) × (c ≡ count_before ctor_line (lines 6 s.now) i) }
    ensures { out.new ≡ upto s.now (suc i) out.old }
{
    if table_access::decl_number(t, d, 4) == 1 {
        return;
    }
    let first = table_access::first_ctor(t, d);
    let tag = (c - first + 1) as u32;
    let at = i * LINE + TAG;
    sheet_digits::write_six(&mut out[at..at + COLUMNS], tag);
}

// The layout's number of declaration d: by its cell, and by its body kind where its name is left or abbreviates.
fn layout_number(t: &[u32], u: &[u16], d: usize) -> u8
    requires tabled { Tabled t.now × Settled (lines_in t.now) u.now }
    requires d_bound { d < decls_of (lines_in t.now) }
    ensures { result ≡ decl.layout_number (layout_of_decl (program (lines_in t.now)) d) }
{
    let state = u[2 * d];
    if state == 0 {
        return 0;
    }
    if state == 1 {
        return 1;
    }
    let kind = table_access::decl_number(t, d, 2);
    if kind == 0 {
        return 4;
    }
    if kind == 1 {
        return 3;
    }
    2
}

// The V line i of a local declaration d: erased, layout, record.
pub fn put_verdict(
    s: &[u8],
    t: &[u32],
    u: &[u16],
    records: &[u8],
    out: &mut [u8],
    d: usize,
    i: usize,
)
    requires of_sheet { OfSheet s.now t.now × Settled (lines_in t.now) u.now × Recorded (lines 6 s.now) records.now }
    requires next { Next s.now out.old d i × (get_or s.now (i * 32) 0 ≡ 86) }
    ensures { out.new ≡ upto s.now (suc i) out.old }
{
    let layout = layout_number(t, u, d);
    let at = i * LINE;
    out[at + FIRST] = b'0' + u8::from(layout == 0);
    out[at + SECOND] = b'0' + layout;
    out[at + THIRD] = b'0' + records[d];
}
