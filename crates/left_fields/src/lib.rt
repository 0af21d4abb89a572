// Writes the fields that are left of a declaration: the type of each, and its F line.
#![tactic(auto)]

ghost use Rattle.std.specs.Prelude.{◌≡◌, [], ◌∷◌, ◌+◌, ◌≤◌, ◌<◌, length};
ghost use Rattle.sheet.specs.Sheet.{lines};
ghost use Rattle.meaning.specs.Program.{field_line};
ghost use Rattle.meaning.specs.Rows.{count_of};
ghost use Rattle.meaning.specs.Output.{field_lines};
ghost use Rattle.keep_layouts.specs.Kept.{field_type};
ghost use Rattle.left_places.specs.Places.{Room, Writes, Typed};
ghost use Rattle.table_access.specs.Tables.{lines_in};
ghost use Rattle.left_fields.specs.Fields.{left_field, left_fields, kept_count, Fields};

use left_places::{Place, put_line, put_type};

// F line i of declaration d with its type.
fn put_field(
    t: &[u32],
    u: &[u16],
    f: &[u64],
    scratch: &mut [u64],
    stack: &mut [u32],
    out: &mut [u8],
    i: usize,
    d: usize,
    p: Place,
) -> Place
    requires typed { Typed (lines_in t.now) t.now u.now f.now (field_type (lines_in t.now) i) d (length scratch.old) × (i < count_of field_line (lines_in t.now)) }
    requires scratch_in_bounds { (length scratch.old ≤ length stack.old) × Room (field_lines (left_field (lines_in t.now) d i ∷ [])) p out.old }
    ensures { Writes (field_lines (left_field (lines_in t.now) d i ∷ [])) p result out.old out.new }
{
    let y = table_access::field_number(t, i, 1) as usize;
    let q = put_type(t, u, f, scratch, stack, out, y, d, p);
    let name = table_access::field_number(t, i, 0);
    let n = (q.types - 1) as u32;
    put_line(out, b'F', [name, n, 0, 0, 0], q)
}

// F line i, if it is kept.
fn put_kept(
    t: &[u32],
    u: &[u16],
    f: &[u64],
    keep: &[u8],
    scratch: &mut [u64],
    stack: &mut [u32],
    out: &mut [u8],
    i: usize,
    d: usize,
    p: Place,
) -> Place
    requires fields { Fields (lines_in t.now) t.now u.now f.now keep.now d i (i + 1) (length scratch.old) }
    requires scratch_in_bounds { (length scratch.old ≤ length stack.old) × Room (field_lines (left_fields (lines_in t.now) keep.now d i 1)) p out.old }
    ensures { Writes (field_lines (left_fields (lines_in t.now) keep.now d i 1)) p result out.old out.new }
{
    if keep[i] != 1 {
        return p;
    }
    put_field(t, u, f, scratch, stack, out, i, d, p)
}

// The kept ones of the n F lines from line i on.
pub fn put_fields(
    t: &[u32],
    u: &[u16],
    f: &[u64],
    keep: &[u8],
    scratch: &mut [u64],
    stack: &mut [u32],
    out: &mut [u8],
    i: usize,
    n: usize,
    d: usize,
    p: Place,
) -> Place
    requires fields { Fields (lines_in t.now) t.now u.now f.now keep.now d i (i + n) (length scratch.old) }
    requires scratch_in_bounds { (length scratch.old ≤ length stack.old) × Room (field_lines (left_fields (lines_in t.now) keep.now d i n)) p out.old }
    ensures { Writes (field_lines (left_fields (lines_in t.now) keep.now d i n)) p result out.old out.new }
{
    let mut q = p;
    for j in 0..n {
        q = put_kept(t, u, f, keep, scratch, stack, out, i + j, d, q);
    }
    q
}

// How many of the n F lines from line i on are kept.
pub fn count_kept(keep: &[u8], i: usize, n: usize) -> usize
    requires { i + n ≤ length keep.now }
    ensures { result ≡ kept_count keep.now i n }
{
    keep[i..i + n].iter().filter(|k| **k == 1).count()
}
