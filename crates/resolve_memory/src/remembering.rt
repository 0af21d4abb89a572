// Writes a call and its answer into its slot.
ghost use Rattle.std.specs.Prelude.{◌+◌, ◌≤◌, ◌<◌, length};
ghost use Rattle.resolve_outcomes.specs.Scratch as scratch;
ghost use Rattle.resolve_memory.specs.Slots.{Written, Filled};

use crate::{ARGS, WIDTH};

// Copies the outcomes of a call's arguments.
fn fill(slots: &mut [u16], base: usize, out: &[u16], at: usize, count: usize)
    requires { (base + count ≤ length slots.old) × (at + count ≤ length out.now) }
    ensures { Filled base count (scratch.part at count out.now) slots.old slots.new }
{
    // A loop, for the reason in `sheet_copier::copy_lines`.
    for i in 0..count {
        slots[base + i] = out[at + i];
    }
}

// Remembers an answer that is an outcome or a fault.
pub fn remember(slots: &mut [u16], n: usize, out: &[u16], at: usize, count: usize, r: usize)
    requires { (n < 65535) × (at + count ≤ length out.now) × (r < 65536) }
    ensures { Written n (scratch.part at count out.now) r slots.old slots.new }
{
    if r < 2 {
        return;
    }
    if count > ARGS {
        return;
    }
    let all = slots.len() / WIDTH;
    if all == 0 {
        return;
    }
    let base = WIDTH * crate::spot(n, out, at, count, all);
    fill(slots, base + 2, out, at, count);
    slots[base] = (n + 1) as u16;
    slots[base + 1] = count as u16;
    slots[base + 10] = r as u16;
}
