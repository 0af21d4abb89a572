// Both sheets of a sheet to which no row applies but those of the outputs: counted first, then written.
#![tactic(auto)]

ghost use Rattle.std.specs.Prelude.{◌⊎◌, ◌≡◌, ◌*◌, ◌≤◌, ◌<◌, length};
ghost use Rattle.model.specs.Run.{run};
ghost use Rattle.meaning.specs.Program.{name_line, program};
ghost use Rattle.meaning.specs.Rows.{count_of};
ghost use Rattle.table_access.specs.Tables.{decls_of, lines_in};
ghost use Rattle.left_laws.specs.Lefts.{Flagged};
ghost use Rattle.answer_built.specs.Built.{Tries};
ghost use Rattle.build_sheets.specs.Sheets.{Known, Owed, Lent, Written};

use answer_built::Built;
use sheet_parts::LINE;

// Writes both sheets, of which the left one has so many A and Y lines.
fn write(
    s: &[u8],
    t: &[u32],
    u: &[u16],
    f: &[u64],
    keep: &[u8],
    left: &[u8],
    scratch: &mut [u64],
    stack: &mut [u32],
    v: &mut [u8],
    l: &mut [u8],
    args: usize,
    types: usize,
)
    requires known { Known s.now t.now u.now f.now keep.now v.old (length scratch.old) (length stack.old) }
    requires flagged { Flagged (lines_in t.now) left.now × Owed s.now t.now u.now keep.now l.old (length scratch.old) args types }
    ensures { Written s.now v.old l.old v.new l.new }
{
    let mut records = [0u8; 96];
    left_records::records(t, u, f, keep, left, &mut records);
    verdict_sheet::put_verdicts(s, t, u, keep, &records, v);
    left_sheet::put_left(s, t, u, f, keep, left, scratch, stack, l, args, types);
}

// Counts the left sheet's lines; then row 12, and both sheets. None where a type has no room.
fn measured(
    s: &[u8],
    t: &[u32],
    rounds: usize,
    u: &[u16],
    f: &[u64],
    keep: &[u8],
    left: &[u8],
    scratch: &mut [u64],
    stack: &mut [u32],
    v: &mut [u8],
    l: &mut [u8],
) -> Option<Built>
    requires known { Known s.now t.now u.now f.now keep.now v.old (length scratch.old) (length stack.old) }
    requires flagged { Flagged (lines_in t.now) left.now × (rounds ≡ (run 100 (program (lines_in t.now))).rounds) }
    ensures { Tries (length scratch.old < 1024) s.now v.old l.old result v.new l.new }
{
    let names = table_access::names(t);
    let c = left_count::count(t, u, f, keep, left, scratch)?;
    let needed = LINE * (names + c.args + c.types + c.lines);
    if l.len() < needed {
        return Some(answer_built::refused(12, needed));
    }
    write(
        s, t, u, f, keep, left, scratch, stack, v, l, c.args, c.types,
    );
    Some(Built {
        code: 0,
        place: 0,
        rounds,
        verdict: s.len(),
        left: needed,
    })
}

// From the normal forms.
fn formed(
    s: &[u8],
    t: &[u32],
    rounds: usize,
    u: &[u16],
    f: &[u64],
    keep: &[u8],
    scratch: &mut [u64],
    stack: &mut [u32],
    v: &mut [u8],
    l: &mut [u8],
) -> Option<Built>
    requires known { Known s.now t.now u.now f.now keep.now v.old (length scratch.old) (length stack.old) }
    requires rounds_value { rounds ≡ (run 100 (program (lines_in t.now))).rounds }
    ensures { Tries (length scratch.old < 1024) s.now v.old l.old result v.new l.new }
{
    let mut left = [0u8; 96];
    left_flags::flags(t, u, f, keep, &mut left);
    measured(s, t, rounds, u, f, keep, &left, scratch, stack, v, l)
}

// Row 12 and both sheets, in memory that is lent: the list of normal forms, and room for one type. None where it is too short, and
// nothing is written.
pub fn sheets(
    s: &[u8],
    t: &[u32],
    rounds: usize,
    u: &[u16],
    rank: &[u16],
    keep: &[u8],
    f: &mut [u64],
    scratch: &mut [u64],
    stack: &mut [u32],
    v: &mut [u8],
    l: &mut [u8],
) -> Option<Built>
    requires lent { Lent s.now t.now u.now rank.now keep.now v.old (length f.old) (length scratch.old) (length stack.old) }
    requires rounds_value { rounds ≡ (run 100 (program (lines_in t.now))).rounds }
    ensures { Tries ((length f.old < 1026 * decls_of (lines_in t.now)) ⊎ (length scratch.old < 1024)) s.now v.old l.old result v.new l.new }
{
    let e = form_tables::normal_forms(t, u, rank, f, scratch);
    if e > f.len() {
        return None;
    }
    formed(s, t, rounds, u, f, keep, scratch, stack, v, l)
}
