// Writes the left sheet of an accepted sheet into an output that has room for it.
#![tactic(auto)]

mod left_program;

ghost use Rattle.std.specs.Prelude.{◌≡◌, ◌*◌, ◌≤◌, length};
ghost use Rattle.sheet.specs.Format.{base};
ghost use Rattle.sheet.specs.Sheet.{lines};
ghost use Rattle.sheet.specs.Output.{puts};
ghost use Rattle.meaning.specs.Program.{name_line, field_line, select};
ghost use Rattle.meaning.specs.Rows.{count_of};
ghost use Rattle.answer.specs.Answer.{left_sheet, after};
ghost use Rattle.table_access.specs.Tables.{lines_in};
ghost use Rattle.table_access.specs.OfSheet.{OfSheet};
ghost use Rattle.left_laws.specs.Lefts.{Ready, Flagged, Fit, left_written};

use left_places::Place;
use left_program::put_decls;
use sheet_copier::copy_lines;
use sheet_parts::LINE;

// Copies the n N lines of the sheet, which are its first, to the front of the output.
fn put_names(s: &[u8], t: &[u32], out: &mut [u8], n: usize)
    requires { OfSheet s.now t.now × (n ≡ count_of name_line (lines_in t.now)) × (32 * n ≤ length out.old) }
    ensures { out.new ≡ puts 6 out.old 0 (select name_line (lines 6 s.now)) }
{
    let end = n * LINE;
    copy_lines(&mut out[0..end], &s[0..end]);
}

// The left sheet: its N lines, `args` A lines, `types` Y lines and what is left of the declarations.
pub fn put_left(
    s: &[u8],
    t: &[u32],
    u: &[u16],
    f: &[u64],
    keep: &[u8],
    left: &[u8],
    scratch: &mut [u64],
    stack: &mut [u32],
    out: &mut [u8],
    args: usize,
    types: usize,
)
    requires of_sheet { OfSheet s.now t.now × Ready (lines_in t.now) t.now u.now f.now keep.now }
    requires flagged { Flagged (lines_in t.now) left.now × Fit (lines_in t.now) u.now keep.now (length scratch.old) }
    requires t_in_bounds { (count_of field_line (lines_in t.now) ≤ length keep.now) × (length scratch.old ≤ length stack.old) }
    requires args_value { (args ≡ length (left_written (lines_in t.now)).written.args) × (types ≡ length (left_written (lines_in t.now)).written.types) }
    requires s_in_bounds { length (left_sheet base (lines 6 s.now)) ≤ length out.old }
    ensures { out.new ≡ after (left_sheet base (lines 6 s.now)) out.old }
{
    let n = table_access::names(t);
    put_names(s, t, out, n);
    let p = Place {
        lists: n,
        nodes: n + args,
        args: 0,
        types: 0,
        line: n + args + types,
    };
    let q = put_decls(t, u, f, keep, left, scratch, stack, out, p);
}
