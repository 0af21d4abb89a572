// The lines that a rewritten pattern is written as, from the marks and flags of its Q lines: the Q lines of the new
// pattern, then a U line for each freed name. Six cells a line. A link is 0 for none, else a line's number plus one.
#![tactic(auto)]

ghost use Rattle.std.specs.Prelude.{◌≡◌, [], ◌∷◌, ◌+◌, ◌*◌, ◌/◌, ◌≤◌, ◌<◌, length};
ghost use Rattle.sheet.specs.Line.{row};
ghost use Rattle.model_patterns.specs.Pat.{nodes};
ghost use Rattle.meaning_patterns.specs.Patterns.{freed_lines, rewritten_lines};
ghost use Rattle.walk_cells.specs.Cells.{lines_of};
ghost use Rattle.pattern_laws.specs.Made.{made_of};
ghost use Rattle.pattern_emit.specs.Emit as emit;

use walk_cells::{CELLS, number};

// The letters of the lines that are written.
const PATTERN_LINE: u32 = 81;

const FREED_LINE: u32 = 85;

// The flags of parts that are kept, and of parts that are dropped with their names freed.
const KEPT: u8 = 1;

const DROPPED: u8 = 0;

// A line as line `at`.
fn put_line(
    letter: u32,
    a: u32,
    b: u32,
    c: u32,
    d: u32,
    e: u32,
    out: &mut [u32],
    at: usize,
) -> usize
    requires { emit.Room (row letter (a ∷ b ∷ c ∷ d ∷ e ∷ []) ∷ []) out.old at }
    ensures { emit.Put (row letter (a ∷ b ∷ c ∷ d ∷ e ∷ []) ∷ []) out.old at result out.new }
{
    let i = CELLS * at;
    out[i..i + CELLS].copy_from_slice(&[letter, a, b, c, d, e]);
    at + 1
}

// The own line of a pattern, as line `at`; for names a U line if it is a variable.
fn put_own(
    names: bool,
    kind: u32,
    name: u32,
    last: u32,
    previous: u32,
    field: u32,
    out: &mut [u32],
    at: usize,
) -> usize
    requires { emit.Room (emit.own names kind name last previous field) out.old at }
    ensures { emit.Put (emit.own names kind name last previous field) out.old at result out.new }
{
    if names {
        if kind != 1 {
            return at;
        }
        return put_line(FREED_LINE, name, 0, 0, 0, 0, out, at);
    }
    put_line(PATTERN_LINE, kind, name, last, previous, field, out, at)
}

// The link to the last of the parts that stand from line `from` to line `next`: the last of its lines is its own.
fn behind(from: usize, next: usize) -> u32
    requires { next < 4294967296 }
    ensures { result ≡ emit.behind from next }
{
    if next == from {
        return 0;
    }
    next as u32
}

// The mark of what a link names; nothing is wild.
fn mark_to(marks: &[u8], k: usize) -> u8
    requires { k ≤ length marks.now }
    ensures { result ≡ emit.mark_to marks.now k }
{
    if k == 0 {
        return 0;
    }
    marks[k - 1]
}

// The part that link k names where it is kept, else part r.
fn kept_or(flags: &[u8], k: usize, r: usize) -> usize
    requires { (0 < k) × (k ≤ length flags.now) }
    ensures { result ≡ emit.kept_or flags.now k r }
{
    if flags[k - 1] == KEPT {
        return k;
    }
    r
}

// The first kept part of the list that link k ends.
// A while and no for: the step is a link, and not one.
fn first_kept(q: &[u32], flags: &[u8], k: usize) -> usize
    requires { emit.Linked (lines_of q.now) × (length q.now / 6 ≤ length flags.now) × (k ≤ length q.now / 6) }
    ensures { emit.First q.now flags.now k result }
{
    let mut r = 0;
    let mut l = k;
    while l > 0 {
        r = kept_or(flags, l, r);
        l = number(q, l - 1, 3) as usize;
    }
    r
}

// The lines of what becomes of the line that link k names, as a part behind `previous` with this field; for names the U lines
// of its variables.
#[cycle(put_parts_put_pattern)]
fn put_pattern(
    q: &[u32],
    marks: &[u8],
    flags: &[u8],
    names: bool,
    k: usize,
    previous: u32,
    field: u32,
    out: &mut [u32],
    at: usize,
) -> usize
    requires asked { emit.Asked q.now marks.now flags.now × (k ≤ length q.now / 6) }
    requires room { emit.Room (emit.emitted names (emit.at_link q.now marks.now flags.now k).pat at previous field) out.old at }
    ensures { emit.Put (emit.emitted names (emit.at_link q.now marks.now flags.now k).pat at previous field) out.old at result out.new }
{
    let mark = mark_to(marks, k);
    if mark == 0 {
        return put_own(names, 0, 0, 0, previous, field, out, at);
    }
    let last = number(q, k - 1, 2) as usize;
    if mark != 1 {
        let only = first_kept(q, flags, last);
        return put_pattern(q, marks, flags, names, only, previous, field, out, at);
    }
    let kind = number(q, k - 1, 0);
    let name = number(q, k - 1, 1);
    let r = put_parts(q, marks, flags, names, KEPT, last, out, at);
    put_own(names, kind, name, behind(at, r), previous, field, out, r)
}

// The same for the parts with this flag of the list that link k ends, from left to right: for kept ones, or for the names of dropped
// ones.
#[cycle(put_parts_put_pattern)]
fn put_parts(
    q: &[u32],
    marks: &[u8],
    flags: &[u8],
    names: bool,
    flag: u8,
    k: usize,
    out: &mut [u32],
    at: usize,
) -> usize
    requires asked { emit.Asked q.now marks.now flags.now × (k ≤ length q.now / 6) × emit.Wanted names flag }
    requires room { emit.Room (emit.listed names flag (emit.at_link q.now marks.now flags.now k) at) out.old at }
    ensures { emit.Put (emit.listed names flag (emit.at_link q.now marks.now flags.now k) at) out.old at result out.new }
{
    if k == 0 {
        return at;
    }
    let previous = number(q, k - 1, 3) as usize;
    if flags[k - 1] != flag {
        return put_parts(q, marks, flags, names, flag, previous, out, at);
    }
    let field = number(q, k - 1, 4);
    let r = put_parts(q, marks, flags, names, flag, previous, out, at);
    put_pattern(q, marks, flags, names, k, behind(at, r), field, out, r)
}

// U lines for the names freed in the parts of the list that link k ends: of each part those freed in its own parts, then those of its
// dropped parts.
fn put_inner(q: &[u32], marks: &[u8], flags: &[u8], k: usize, out: &mut [u32], at: usize) -> usize
    requires asked { emit.Asked q.now marks.now flags.now × (k ≤ length q.now / 6) }
    requires room { emit.Room (freed_lines (emit.at_link q.now marks.now flags.now k).inner) out.old at }
    ensures { emit.Put (freed_lines (emit.at_link q.now marks.now flags.now k).inner) out.old at result out.new }
{
    if k == 0 {
        return at;
    }
    let previous = number(q, k - 1, 3) as usize;
    let last = number(q, k - 1, 2) as usize;
    let r = put_inner(q, marks, flags, previous, out, at);
    let s = put_inner(q, marks, flags, last, out, r);
    put_parts(q, marks, flags, true, DROPPED, last, out, s)
}

// The lines of the whole, from line 0 on.
pub fn emit(q: &[u32], marks: &[u8], flags: &[u8], out: &mut [u32]) -> usize
    requires asked { emit.Asked q.now marks.now flags.now × (6 ≤ length q.now) }
    requires q_in_bounds { (6 * (nodes (made_of marks.now flags.now (lines_of q.now)).pat + length (made_of marks.now flags.now (lines_of q.now)).freed) ≤ length out.old) × (length out.old < 4294967296) }
    ensures { emit.Put (rewritten_lines (made_of marks.now flags.now (lines_of q.now))) out.old 0 result out.new }
{
    let n = q.len() / CELLS;
    let last = number(q, n - 1, 2) as usize;
    let r = put_pattern(q, marks, flags, false, n, 0, 0, out, 0);
    let s = put_inner(q, marks, flags, last, out, r);
    put_parts(q, marks, flags, true, DROPPED, last, out, s)
}
