// Remembered calls: a slot has a name, its arguments' outcomes and the answer.
#![tactic(auto)]

pub mod remembering;

ghost use Rattle.std.specs.Prelude.{◌≡◌, true, ◌+◌, ◌≤◌, ◌<◌, length};
ghost use Rattle.resolve_outcomes.specs.Scratch as scratch;
ghost use Rattle.resolve_memory.specs.Slots.{Recalled};

// The cells of a slot, and how many arguments it has room for.
pub const WIDTH: usize = 11;

pub const ARGS: usize = 8;

// Which of the slots is a call's. Every number below their count would do.
pub fn spot(n: usize, out: &[u16], at: usize, count: usize, slots: usize) -> usize
    requires { (n < 65535) × (at + count ≤ length out.now) × (0 < slots) }
    ensures { result < slots }
{
    let mut h = n;
    for i in 0..count {
        h = (h * 40503 + out[at + i] as usize * 31) % 65536;
    }
    (h * 40503 / 16) % slots
}

// Equal cells.
fn same(slots: &[u16], base: usize, out: &[u16], at: usize, count: usize) -> bool
    requires { (base + count ≤ length slots.now) × (at + count ≤ length out.now) }
    ensures { result ≡ true → scratch.part base count slots.now ≡ scratch.part at count out.now }
{
    slots[base..base + count] == out[at..at + count]
}

// The answer of a call, or 0 where it is not remembered.
pub fn recall(slots: &[u16], n: usize, out: &[u16], at: usize, count: usize) -> usize
    requires { (n < 65535) × (at + count ≤ length out.now) }
    ensures { Recalled slots.now n (scratch.part at count out.now) result }
{
    if count > ARGS {
        return 0;
    }
    let all = slots.len() / WIDTH;
    if all == 0 {
        return 0;
    }
    let base = WIDTH * spot(n, out, at, count, all);
    if slots[base] as usize != n + 1 {
        return 0;
    }
    if slots[base + 1] as usize != count {
        return 0;
    }
    if same(slots, base + 2, out, at, count) {
        return slots[base + 10] as usize;
    }
    0
}
