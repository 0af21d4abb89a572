// Counts the A and Y lines of what types resolve to, and of kept fields with their F lines.
ghost use Rattle.std.specs.Prelude.{◌≡◌, [], ◌∷◌, ◌+◌, ◌-◌, ◌*◌, ◌≤◌, ◌<◌, length, get_or};
ghost use Rattle.sheet.specs.Sheet.{lines};
ghost use Rattle.meaning.specs.Program.{field_line};
ghost use Rattle.meaning.specs.Rows.{count_of};
ghost use Rattle.table_access.specs.Tables.{decls_of, first_of, lines_in};
ghost use Rattle.keep_layouts.specs.Kept.{body_kind};
ghost use Rattle.keep_layouts.specs.States.{state};
ghost use Rattle.left_laws.specs.Lefts.{Ready};
ghost use Rattle.left_count.specs.Sums.{Told, Added, Tells};
ghost use Rattle.left_count.specs.SumsLaws.{One, Rest};

use left_laws::Count;

// The A and Y lines of Y line y's type in declaration d, added; None where the scratch is too short for the type.
pub fn count_type(
    t: &[u32],
    u: &[u16],
    f: &[u64],
    scratch: &mut [u64],
    y: usize,
    d: usize,
    c: Count,
) -> Option<Count>
    requires { Told (lines_in t.now) t.now u.now f.now d y × (c.args ≤ 2000000000) × (c.types ≤ 2000000000) }
    ensures { Added (lines_in t.now) d (y ∷ []) 0 (length scratch.old) c result }
{
    let n = form_emit::emit(t, u, f, y, d, false, scratch, 0);
    if n > scratch.len() {
        return None;
    }
    let a = crate::node_count::count_args(&scratch[0..n]);
    Some(Count {
        args: c.args + a,
        types: c.types + n,
        lines: c.lines,
    })
}

// And so many lines.
pub fn add_lines(c: Count, n: usize) -> Count
    requires { (c.lines ≤ 2000000000) × (n ≤ 2000000000) }
    ensures { (result.args ≡ c.args) × (result.types ≡ c.types) × (result.lines ≡ c.lines + n) }
{
    Count {
        args: c.args,
        types: c.types,
        lines: c.lines + n,
    }
}

// F line i of declaration d, if it is kept: its type, and the line.
fn count_field(
    t: &[u32],
    u: &[u16],
    f: &[u64],
    keep: &[u8],
    scratch: &mut [u64],
    i: usize,
    d: usize,
    c: Count,
) -> Option<Count>
    requires { (i < length keep.now) × (get_or keep.now i 0 ≡ 1 → Tells (lines_in t.now) t.now u.now f.now d i) × (c.args ≤ 2000000000) × (c.types ≤ 2000000000) × (c.lines ≤ 900000000) }
    ensures { One (lines_in t.now) keep.now d i (length scratch.old) c result }
{
    if keep[i] != 1 {
        return Some(c);
    }
    let y = table_access::field_number(t, i, 1) as usize;
    let r = count_type(t, u, f, scratch, y, d, c)?;
    Some(add_lines(r, 1))
}

// The kept fields of declaration d.
pub fn count_fields(
    t: &[u32],
    u: &[u16],
    f: &[u64],
    keep: &[u8],
    scratch: &mut [u64],
    d: usize,
    c: Count,
) -> Option<Count>
    requires ready { Ready (lines_in t.now) t.now u.now f.now keep.now × (d < decls_of (lines_in t.now)) × (count_of field_line (lines_in t.now) ≤ length keep.now) }
    requires fact { (state u.now d ≡ 0 → ⊥) × (state u.now d ≡ 1 → ⊥) × (2 ≤ body_kind (lines_in t.now) d) }
    requires room_value { (c.args ≤ 1200000000) × (c.types ≤ 1200000000) × (c.lines ≤ 800000000) }
    ensures { Rest (lines_in t.now) keep.now d (first_of field_line (lines_in t.now) d) (first_of field_line (lines_in t.now) (d + 1)) (length scratch.old) c result }
{
    let end = table_access::first_field(t, d + 1);
    let first = table_access::first_field(t, d);
    let mut r = c;
    for i in first..end {
        r = count_field(t, u, f, keep, scratch, i, d, r)?;
    }
    Some(r)
}
