// Writes the constructors that are left of a declaration: the C line of each with the count of its kept fields, and these.
#![tactic(auto)]

ghost use Rattle.std.specs.Prelude.{◌≡◌, [], ◌∷◌, ◌+◌, ◌≤◌, ◌<◌, length};
ghost use Rattle.sheet.specs.Sheet.{lines};
ghost use Rattle.meaning.specs.Program.{ctor_line};
ghost use Rattle.meaning.specs.Rows.{count_of};
ghost use Rattle.meaning.specs.Output.{ctor_lines};
ghost use Rattle.keep_layouts.specs.Kept.{ctor_fields};
ghost use Rattle.left_places.specs.Places.{Room, Writes};
ghost use Rattle.left_fields.specs.Fields.{Fields};
ghost use Rattle.table_access.specs.Tables.{lines_in};
ghost use Rattle.left_ctors.specs.Ctors.{left_ctor, left_ctors, Ctors};

use left_fields::{count_kept, put_fields};
use left_places::{Place, put_line};

// C line c of declaration d with its kept fields, whose F lines begin with line i.
fn put_ctor(
    t: &[u32],
    u: &[u16],
    f: &[u64],
    keep: &[u8],
    scratch: &mut [u64],
    stack: &mut [u32],
    out: &mut [u8],
    c: usize,
    i: usize,
    d: usize,
    p: Place,
) -> Place
    requires fields { Fields (lines_in t.now) t.now u.now f.now keep.now d i (i + ctor_fields (lines_in t.now) c) (length scratch.old) × (c < count_of ctor_line (lines_in t.now)) }
    requires scratch_in_bounds { (length scratch.old ≤ length stack.old) × Room (ctor_lines (left_ctor (lines_in t.now) keep.now d c i ∷ [])) p out.old }
    ensures { Writes (ctor_lines (left_ctor (lines_in t.now) keep.now d c i ∷ [])) p result out.old out.new }
{
    let n = table_access::ctor_number(t, c, 1) as usize;
    let name = table_access::ctor_number(t, c, 0);
    let m = count_kept(keep, i, n);
    let q = put_line(out, b'C', [name, m as u32, 0, 0, 0], p);
    put_fields(t, u, f, keep, scratch, stack, out, i, n, d, q)
}

// The k C lines from line c on, whose F lines begin with line i.
pub fn put_ctors(
    t: &[u32],
    u: &[u16],
    f: &[u64],
    keep: &[u8],
    scratch: &mut [u64],
    stack: &mut [u32],
    out: &mut [u8],
    c: usize,
    i: usize,
    k: usize,
    d: usize,
    p: Place,
) -> Place
    requires ctors { Ctors (lines_in t.now) t.now u.now f.now keep.now d c i k (length scratch.old) }
    requires scratch_in_bounds { (length scratch.old ≤ length stack.old) × Room (ctor_lines (left_ctors (lines_in t.now) keep.now d c i k)) p out.old }
    ensures { Writes (ctor_lines (left_ctors (lines_in t.now) keep.now d c i k)) p result out.old out.new }
{
    let mut q = p;
    let mut j = i;
    for m in 0..k {
        q = put_ctor(t, u, f, keep, scratch, stack, out, c + m, j, d, q);
        j += table_access::ctor_number(t, c + m, 1) as usize;
    }
    q
}
