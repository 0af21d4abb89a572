// Writes what is left of a sheet's declarations, in their order.
ghost use Rattle.std.specs.Prelude.{◌≡◌, ◌≤◌, ◌<◌, length};
ghost use Rattle.model.specs.Run.{run, left_program};
ghost use Rattle.meaning.specs.Program.{program};
ghost use Rattle.meaning.specs.Output.{program_lines};
ghost use Rattle.table_access.specs.Tables.{decls_of, lines_in};
ghost use Rattle.left_places.specs.Places.{Room, Writes};
ghost use Rattle.left_sheet.specs.Program.{lefts_at, Lefts};

use left_decls::put_decl;
use left_places::Place;

// Declaration d, if it is left.
fn put_at(
    t: &[u32],
    u: &[u16],
    f: &[u64],
    keep: &[u8],
    left: &[u8],
    scratch: &mut [u64],
    stack: &mut [u32],
    out: &mut [u8],
    d: usize,
    p: Place,
) -> Place
    requires lefts { Lefts (lines_in t.now) t.now u.now f.now keep.now left.now (length scratch.old) × (d < decls_of (lines_in t.now)) }
    requires scratch_in_bounds { (length scratch.old ≤ length stack.old) × Room (program_lines (lefts_at (lines_in t.now) d)) p out.old }
    ensures { Writes (program_lines (lefts_at (lines_in t.now) d)) p result out.old out.new }
{
    if left[d] == 0 {
        return p;
    }
    put_decl(t, u, f, keep, scratch, stack, out, d, p)
}

// Every declaration that is left.
pub fn put_decls(
    t: &[u32],
    u: &[u16],
    f: &[u64],
    keep: &[u8],
    left: &[u8],
    scratch: &mut [u64],
    stack: &mut [u32],
    out: &mut [u8],
    p: Place,
) -> Place
    requires lefts { Lefts (lines_in t.now) t.now u.now f.now keep.now left.now (length scratch.old) }
    requires scratch_in_bounds { (length scratch.old ≤ length stack.old) × Room (program_lines (left_program (run 100 (program (lines_in t.now))))) p out.old }
    ensures { Writes (program_lines (left_program (run 100 (program (lines_in t.now))))) p result out.old out.new }
{
    let n = table_access::decls(t);
    let mut q = p;
    for d in 0..n {
        q = put_at(t, u, f, keep, left, scratch, stack, out, d, q);
    }
    q
}
