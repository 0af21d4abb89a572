// Writes what is left of a declaration: its types, its D and P lines, its body and its V line.
#![tactic(auto)]

mod heads;

ghost use Rattle.std.specs.Prelude.{◌≡◌, ◌+◌, ◌≤◌, ◌<◌, length};
ghost use Rattle.sheet.specs.Sheet.{lines};
ghost use Rattle.meaning.specs.Program.{ctor_line, field_line};
ghost use Rattle.table_access.specs.Tables.{first_of, decls_of, lines_in};
ghost use Rattle.keep_layouts.specs.Kept.{body_last};
ghost use Rattle.form_emit.specs.Left.{left_type};
ghost use Rattle.left_places.specs.Places.{Room, Writes, Typed};
ghost use Rattle.left_fields.specs.Fields.{left_fields, Fields};
ghost use Rattle.left_ctors.specs.Ctors.{left_ctors, Ctors};
ghost use Rattle.left_decls.specs.Decls.{left_writing, abbreviated, recorded, varied, Given};

use crate::heads::{put_bare, put_end, put_head};
use left_ctors::put_ctors;
use left_fields::{count_kept, put_fields};
use left_places::{Place, put_type};

// Declaration d as an abbreviation of Y line y's type.
fn put_abbrev(
    t: &[u32],
    u: &[u16],
    f: &[u64],
    scratch: &mut [u64],
    stack: &mut [u32],
    out: &mut [u8],
    y: usize,
    d: usize,
    p: Place,
) -> Place
    requires typed { Typed (lines_in t.now) t.now u.now f.now y d (length scratch.old) }
    requires scratch_in_bounds { (length scratch.old ≤ length stack.old) × Room (abbreviated (lines_in t.now) d (left_type (lines_in t.now) d y)) p out.old }
    ensures { Writes (abbreviated (lines_in t.now) d (left_type (lines_in t.now) d y)) p result out.old out.new }
{
    let q = put_type(t, u, f, scratch, stack, out, y, d, p);
    let n = (q.types - 1) as u32;
    put_bare(t, out, d, 1, n, q)
}

// Declaration d as a record of its kept fields.
fn put_record(
    t: &[u32],
    u: &[u16],
    f: &[u64],
    keep: &[u8],
    scratch: &mut [u64],
    stack: &mut [u32],
    out: &mut [u8],
    d: usize,
    p: Place,
) -> Place
    requires d_bound { (d < decls_of (lines_in t.now)) × Fields (lines_in t.now) t.now u.now f.now keep.now d (first_of field_line (lines_in t.now) d) (first_of field_line (lines_in t.now) d + body_last (lines_in t.now) d) (length scratch.old) }
    requires scratch_in_bounds { (length scratch.old ≤ length stack.old) × Room (recorded (lines_in t.now) d (left_fields (lines_in t.now) keep.now d (first_of field_line (lines_in t.now) d) (body_last (lines_in t.now) d))) p out.old }
    ensures { Writes (recorded (lines_in t.now) d (left_fields (lines_in t.now) keep.now d (first_of field_line (lines_in t.now) d) (body_last (lines_in t.now) d))) p result out.old out.new }
{
    let i = table_access::first_field(t, d);
    let n = table_access::decl_number(t, d, 4) as usize;
    let m = count_kept(keep, i, n);
    let q = put_head(t, out, d, 2, m as u32, p);
    let r = put_fields(t, u, f, keep, scratch, stack, out, i, n, d, q);
    put_end(out, r)
}

// Declaration d as a variant of its constructors with their kept fields.
fn put_variant(
    t: &[u32],
    u: &[u16],
    f: &[u64],
    keep: &[u8],
    scratch: &mut [u64],
    stack: &mut [u32],
    out: &mut [u8],
    d: usize,
    p: Place,
) -> Place
    requires d_bound { (d < decls_of (lines_in t.now)) × Ctors (lines_in t.now) t.now u.now f.now keep.now d (first_of ctor_line (lines_in t.now) d) (first_of field_line (lines_in t.now) d) (body_last (lines_in t.now) d) (length scratch.old) }
    requires scratch_in_bounds { (length scratch.old ≤ length stack.old) × Room (varied (lines_in t.now) d (left_ctors (lines_in t.now) keep.now d (first_of ctor_line (lines_in t.now) d) (first_of field_line (lines_in t.now) d) (body_last (lines_in t.now) d))) p out.old }
    ensures { Writes (varied (lines_in t.now) d (left_ctors (lines_in t.now) keep.now d (first_of ctor_line (lines_in t.now) d) (first_of field_line (lines_in t.now) d) (body_last (lines_in t.now) d))) p result out.old out.new }
{
    let c = table_access::first_ctor(t, d);
    let i = table_access::first_field(t, d);
    let k = table_access::decl_number(t, d, 4);
    let q = put_head(t, out, d, 3, k, p);
    let r = put_ctors(t, u, f, keep, scratch, stack, out, c, i, k as usize, d, q);
    put_end(out, r)
}

// What is left of declaration d: an abbreviation of its payload or of its type, its kept fields, or its D and P lines alone.
pub fn put_decl(
    t: &[u32],
    u: &[u16],
    f: &[u64],
    keep: &[u8],
    scratch: &mut [u64],
    stack: &mut [u32],
    out: &mut [u8],
    d: usize,
    p: Place,
) -> Place
    requires given { Given (lines_in t.now) t.now u.now f.now keep.now d (length scratch.old) }
    requires scratch_in_bounds { (length scratch.old ≤ length stack.old) × Room (left_writing (lines_in t.now) u.now keep.now d) p out.old }
    ensures { Writes (left_writing (lines_in t.now) u.now keep.now d) p result out.old out.new }
{
    if u[2 * d] == 1 {
        let y = u[2 * d + 1] as usize;
        return put_abbrev(t, u, f, scratch, stack, out, y, d, p);
    }
    let kind = table_access::decl_number(t, d, 2);
    if kind == 1 {
        let y = table_access::decl_number(t, d, 4) as usize;
        return put_abbrev(t, u, f, scratch, stack, out, y, d, p);
    }
    if kind == 2 {
        return put_record(t, u, f, keep, scratch, stack, out, d, p);
    }
    if kind == 3 {
        return put_variant(t, u, f, keep, scratch, stack, out, d, p);
    }
    put_bare(t, out, d, 0, 0, p)
}
