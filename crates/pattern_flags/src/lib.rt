// What becomes of each Q line as a part, by the line that owns it, its place and its field: as a flag, by which it is dropped,
// kept, or lost, which is to say dropped and its names not freed.
#![tactic(auto)]

ghost use Rattle.std.specs.Prelude.{◌≡◌, ◌+◌, ◌-◌, ◌*◌, ◌≤◌, ◌<◌, length, get_or};
ghost use Rattle.walk_cells.specs.Cells.{lines_of};
ghost use Rattle.meaning.specs.Program.{field_line};
ghost use Rattle.meaning.specs.Rows.{count_of};
ghost use Rattle.table_access.specs.Tables as tables;
ghost use Rattle.pattern_marks.specs.Tables as given;
ghost use Rattle.pattern_flags.specs.Flags as by;

use form_node_words::state;
use pattern_records::{DROPPED, KEPT, record_flag};
use walk_cells::CELLS;

// The part at a place of a constructor with the k F lines from line f on, by what becomes of its type's name: that of a kept
// field is kept. Of a part past the last field a struct keeps all, a newtype none.
fn slot_flag(keep: &[u8], s: usize, f: usize, k: usize, place: usize) -> u8
    requires { f + k ≤ length keep.now }
    ensures { result ≡ by.slot_flag keep.now s f k place }
{
    if s == 0 {
        return DROPPED;
    }
    if place < k {
        return u8::from(keep[f + place] == 1);
    }
    u8::from(s != 1)
}

// The part at a place of a constructor named n.
fn ctor_flag(keep: &[u8], u: &[u16], m: &[u16], n: usize, place: usize) -> u8
    requires { given.Entry m.now n × (get_or m.now (3 * n + 1) 0 + get_or m.now (3 * n + 2) 0 ≤ length keep.now) }
    ensures { result ≡ by.ctor_flag keep.now u.now m.now n place }
{
    let a = m[3 * n] as usize;
    if a == 0 {
        return KEPT;
    }
    let f = m[3 * n + 1] as usize;
    let k = m[3 * n + 2] as usize;
    slot_flag(keep, state(u, a - 1), f, k, place)
}

// A part of line o, at a place, behind the part that a link names, with the field f.
fn part_flag(
    t: &[u32],
    keep: &[u8],
    u: &[u16],
    m: &[u16],
    q: &[u32],
    o: usize,
    place: usize,
    link: usize,
    f: u32,
) -> u8
    requires given { given.Given t.now m.now (lines_of q.now) × (o < length (lines_of q.now)) × (link ≤ length (lines_of q.now)) }
    requires t_in_bounds { count_of field_line (tables.lines_in t.now) ≤ length keep.now }
    ensures { result ≡ by.part_flag (tables.lines_in t.now) keep.now u.now m.now (lines_of q.now) o place link f }
{
    match walk_cells::number(q, o, 0) {
        3 => ctor_flag(keep, u, m, walk_cells::number(q, o, 1) as usize, place),
        4 => {
            let d = table_access::decl_of(t, walk_cells::number(q, o, 1) as usize);
            record_flag(t, keep, u, q, d, link, f)
        }
        _ => KEPT,
    }
}

// Line i, where it has the owner own (its number plus one, 0 for none) and this place.
fn flag_at(
    t: &[u32],
    keep: &[u8],
    u: &[u16],
    m: &[u16],
    q: &[u32],
    own: usize,
    place: usize,
    i: usize,
) -> u8
    requires given { given.Given t.now m.now (lines_of q.now) × (own ≤ length (lines_of q.now)) × (i < length (lines_of q.now)) }
    requires t_in_bounds { count_of field_line (tables.lines_in t.now) ≤ length keep.now }
    ensures { result ≡ by.flag_at (tables.lines_in t.now) keep.now u.now m.now (lines_of q.now) own place i }
{
    if own == 0 {
        return DROPPED;
    }
    let link = walk_cells::number(q, i, 3) as usize;
    let f = walk_cells::number(q, i, 4);
    part_flag(t, keep, u, m, q, own - 1, place, link, f)
}

// The flag of each line, by the owners and places of lines.
pub fn flags(
    t: &[u32],
    keep: &[u8],
    u: &[u16],
    m: &[u16],
    q: &[u32],
    own: &[u16],
    place: &[u16],
    flags: &mut [u8],
)
    requires given { given.Given t.now m.now (lines_of q.now) × by.Owners (lines_of q.now) own.now place.now }
    requires t_in_bounds { (count_of field_line (tables.lines_in t.now) ≤ length keep.now) × (length (lines_of q.now) ≤ length flags.old) }
    ensures { by.FlagsTo (tables.lines_in t.now) keep.now u.now m.now (lines_of q.now) own.now place.now flags.new (length (lines_of q.now)) }
{
    for i in 0..q.len() / CELLS {
        flags[i] = flag_at(t, keep, u, m, q, own[i] as usize, place[i] as usize, i);
    }
}
