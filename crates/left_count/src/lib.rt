// Counts the lines of the left sheet: A, Y and those of declarations.
#![tactic(auto)]

mod node_count;
mod types;

ghost use Rattle.std.specs.Prelude.{◌≡◌, ◌+◌, ◌*◌, ◌≤◌, ◌<◌, length};
ghost use Rattle.sheet.specs.Sheet.{lines};
ghost use Rattle.meaning.specs.Program.{field_line};
ghost use Rattle.meaning.specs.Rows.{count_of};
ghost use Rattle.table_access.specs.Tables.{decls_of, lines_in};
ghost use Rattle.keep_layouts.specs.States.{state, resolves_of};
ghost use Rattle.left_laws.specs.Lefts.{Ready, Flagged, Counted};
ghost use Rattle.left_laws.specs.BodyLaws.{left_body, body_lines};
ghost use Rattle.left_count.specs.Sums.{Added};
ghost use Rattle.left_count.specs.Counts.{decl_types, decl_count, Few};

use crate::types::{add_lines, count_fields, count_type};
use left_laws::Count;

// The types of declaration d, and the lines of its body.
fn count_body(
    t: &[u32],
    u: &[u16],
    f: &[u64],
    keep: &[u8],
    scratch: &mut [u64],
    d: usize,
    c: Count,
) -> Option<Count>
    requires ready { Ready (lines_in t.now) t.now u.now f.now keep.now × (d < decls_of (lines_in t.now)) × (count_of field_line (lines_in t.now) ≤ length keep.now) }
    requires fact { (state u.now d ≡ 0 → ⊥) × (c.args ≤ 1100000000) × (c.types ≤ 1100000000) × (c.lines ≤ 700000000) }
    ensures { Added (lines_in t.now) d (resolves_of (lines_in t.now) u.now keep.now d) (body_lines (left_body (lines_in t.now) u.now keep.now d)) (length scratch.old) c result }
{
    if form_node_words::state(u, d) == 1 {
        let y = u[2 * d + 1] as usize;
        return count_type(t, u, f, scratch, y, d, c);
    }
    let k = table_access::decl_number(t, d, 2);
    if k == 0 {
        return Some(c);
    }
    let n = table_access::decl_number(t, d, 4) as usize;
    if k == 1 {
        return count_type(t, u, f, scratch, n, d, c);
    }
    if k == 2 {
        return count_fields(t, u, f, keep, scratch, d, c);
    }
    count_fields(t, u, f, keep, scratch, d, add_lines(c, n))
}

// Declaration d, if it leaves one.
fn count_decl(
    t: &[u32],
    u: &[u16],
    f: &[u64],
    keep: &[u8],
    left: &[u8],
    scratch: &mut [u64],
    d: usize,
    c: Count,
) -> Option<Count>
    requires ready { Ready (lines_in t.now) t.now u.now f.now keep.now × (d < decls_of (lines_in t.now)) × (count_of field_line (lines_in t.now) ≤ length keep.now) × Flagged (lines_in t.now) left.now }
    requires room_value { (c.args ≤ 1100000000) × (c.types ≤ 1100000000) × (c.lines ≤ 600000000) }
    ensures { Added (lines_in t.now) d (decl_types (lines_in t.now) u.now keep.now left.now d) (decl_count (lines_in t.now) u.now keep.now left.now d) (length scratch.old) c result }
{
    if left[d] == 0 {
        return Some(c);
    }
    let n = resolve_kids::params(t, d);
    count_body(t, u, f, keep, scratch, d, add_lines(c, n + 2))
}

// All declarations; None where the scratch is too short for a type.
pub fn count(
    t: &[u32],
    u: &[u16],
    f: &[u64],
    keep: &[u8],
    left: &[u8],
    scratch: &mut [u64],
) -> Option<Count>
    requires { Ready (lines_in t.now) t.now u.now f.now keep.now × (count_of field_line (lines_in t.now) ≤ length keep.now) × Flagged (lines_in t.now) left.now }
    ensures { Counted (lines_in t.now) u.now keep.now (length scratch.old) result × Few result }
{
    let n = table_access::decls(t);
    let mut c = Count {
        args: 0,
        types: 0,
        lines: 0,
    };
    for d in 0..n {
        c = count_decl(t, u, f, keep, left, scratch, d, c)?;
    }
    Some(c)
}
