// What becomes of each Q line by its kind and name, as a mark: it is wild, it is its own kind over the parts that are kept, or the
// part that is kept stands for it.
#![tactic(auto)]

ghost use Rattle.std.specs.Prelude.{◌≡◌, ◌+◌, ◌-◌, ◌*◌, ◌≤◌, ◌<◌, length};
ghost use Rattle.walk_cells.specs.Cells.{lines_of};
ghost use Rattle.table_access.specs.Tables as tables;
ghost use Rattle.pattern_marks.specs.Tables as by;

use form_node_words::state;
use walk_cells::CELLS;

// The marks: wild, its own kind, and the part that is kept. Numbers and no enum: the contract of `marks`, which may not change, tells
// bytes.
const WILD: u8 = 0;

const OWN: u8 = 1;

const PART: u8 = 2;

// The mark of a constructor or a record, by what becomes of its type's name.
fn state_mark(s: usize) -> u8
    ensures { result ≡ by.state_mark s }
{
    match s {
        0 => WILD,
        1 => PART,
        _ => OWN,
    }
}

// The mark of a constructor.
fn ctor_mark(u: &[u16], m: &[u16], n: usize) -> u8
    requires { by.Entry m.now n }
    ensures { result ≡ by.ctor_mark u.now m.now n }
{
    let a = m[3 * n] as usize;
    if a == 0 {
        return OWN;
    }
    state_mark(state(u, a - 1))
}

// The mark of line i.
fn mark_at(t: &[u32], u: &[u16], m: &[u16], q: &[u32], i: usize) -> u8
    requires { by.Given t.now m.now (lines_of q.now) × (i < length (lines_of q.now)) }
    ensures { result ≡ by.mark_at (tables.lines_in t.now) u.now m.now (lines_of q.now) i }
{
    match walk_cells::number(q, i, 0) {
        3 => ctor_mark(u, m, walk_cells::number(q, i, 1) as usize),
        4 => {
            let d = table_access::decl_of(t, walk_cells::number(q, i, 1) as usize);
            state_mark(state(u, d))
        }
        _ => OWN,
    }
}

// The mark of each line.
pub fn marks(t: &[u32], u: &[u16], m: &[u16], q: &[u32], marks: &mut [u8])
    requires { by.Given t.now m.now (lines_of q.now) × (length (lines_of q.now) ≤ length marks.old) }
    ensures { by.MarksTo (tables.lines_in t.now) u.now m.now (lines_of q.now) marks.new (length (lines_of q.now)) }
{
    for i in 0..q.len() / CELLS {
        marks[i] = mark_at(t, u, m, q, i);
    }
}
