// Sizes of outcomes added up, never past one more than the limit (FORMAT, section 2).
ghost use Rattle.std.specs.Prelude.{◌≡◌, ◌+◌, ◌≤◌, ◌<◌, length};
ghost use Rattle.resolve_outcomes.specs.Outcome as outcome;
ghost use Rattle.resolve_outcomes.specs.Scratch as scratch;

// The limit on the nodes of a type (FORMAT, section 2).
pub const LIMIT: usize = 1024;

// Code 10 as an answer.
const TEN: usize = 3;

// The sum of two sizes.
pub fn more(a: usize, b: usize) -> usize
    requires { (a ≤ 1025) × (b < 65536) }
    ensures { result ≡ scratch.capped 1024 (a + b) }
{
    (a + b).min(LIMIT + 1)
}

// The nodes of `count` outcomes from place `at` on, added to `from`.
pub fn total(out: &[u16], at: usize, count: usize, from: usize) -> usize
    requires { (at + count ≤ length out.now) × (from ≤ 1025) }
    ensures { result ≡ scratch.capped 1024 (from + outcome.total (scratch.part at count out.now)) }
{
    let mut n = from;
    for i in 0..count {
        n = more(n, out[at + i] as usize / 4);
    }
    n
}

// A node over the `count` outcomes from place `at` on, of this head.
pub fn built(out: &[u16], at: usize, count: usize, head: usize) -> usize
    requires { (at + count ≤ length out.now) × (head < 4) }
    ensures { scratch.Says (outcome.built 1024 (scratch.part at count out.now) head) result }
{
    let n = total(out, at, count, 1);
    if n > LIMIT {
        return TEN;
    }
    4 * n + head
}
