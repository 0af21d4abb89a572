// A sheet cut into units of one, two and three declarations. A unit's sheet is the verdict sheet before it and then its declarations:
// so it is the whole's lines up to its end, with the verdict sheet over those before it. Line W says of a way how many declarations a
// unit has and how many units there are, and whether all are accepted and both sheets of the last are those of the whole.
ghost use Rattle.std.specs.Prelude.{◌-◌, ◌≤◌, length};

use crate::output;
use answer_built::Built;

const LINE: usize = 32;

// How far a way has come.
#[derive(Clone, Copy)]
struct Progress {
    at: usize,
    units: u32,
    accepted: bool,
    left: usize,
}

// The place a line further, or the sheet's end.
fn past(s: &[u8], at: usize) -> usize
    requires { at ≤ length s.now }
    ensures { (result ≤ length s.now) × (length s.now - result ≤ length s.now - at - 1) }
{
    if s.len() - at < LINE {
        return s.len();
    }
    at + LINE
}

// The place of the next D or I line from place `from` on, or the sheet's end.
fn next_head(s: &[u8], from: usize) -> usize
    requires { from ≤ length s.now }
    ensures { result ≤ length s.now }
{
    for at in (from..s.len()).step_by(LINE) {
        if matches!(s[at], b'D' | b'I') {
            return at;
        }
    }
    s.len()
}

// Where the unit of k declarations ends that begins at place `from`.
fn unit_end(s: &[u8], from: usize, k: u32) -> usize
    requires { from ≤ length s.now }
    ensures { result ≤ length s.now }
{
    let mut at = from;
    for _ in 0..k {
        at = next_head(s, past(s, at));
    }
    at
}

// The first n bytes of a, laid over b.
fn lay(a: &[u8], b: &mut [u8], n: usize) {
    let end = n.min(a.len()).min(b.len());
    b[..end].copy_from_slice(&a[..end]);
}

// One unit more: `unit` holds the verdict sheet so far, and behind it the whole's lines.
fn step(s: &[u8], k: u32, unit: &mut [u8], v: &mut [u8], l: &mut [u8], w: Progress) -> Progress
    requires { w.at ≤ length s.now }
    ensures { result.at ≤ length s.now }
{
    let at = w.at;
    if at >= s.len() {
        return w;
    }
    let end = unit_end(s, at, k);
    if end > unit.len() {
        return Progress {
            at,
            units: w.units,
            accepted: false,
            left: 0,
        };
    }
    let r = build::build(&unit[0..end], v, l);
    lay(v, unit, end);
    let units = w.units.wrapping_add(1);
    if r.code != 0 {
        return Progress {
            at: end,
            units,
            accepted: false,
            left: 0,
        };
    }
    Progress {
        at: end,
        units,
        accepted: w.accepted,
        left: r.left,
    }
}

// All units of k declarations.
fn run(s: &[u8], k: u32, unit: &mut [u8], v: &mut [u8], l: &mut [u8]) -> Progress {
    let mut w = Progress {
        at: next_head(s, 0),
        units: 0,
        accepted: true,
        left: 0,
    };
    for _ in 0..96 {
        w = step(s, k, unit, v, l, w);
    }
    w
}

// One way: units of k declarations against the whole, whose answer is b.
fn way(rt: &impl Print, s: &[u8], k: u32, b: Built, verdict: &[u8], left: &[u8]) {
    let mut unit = [0u8; 65536];
    let mut v = [0u8; 65536];
    let mut l = [0u8; 65536];
    lay(s, &mut unit, s.len());
    let w = run(s, k, &mut unit, &mut v, &mut l);
    let same_left = w.left == b.left && output::same_front(&l, left, b.left);
    let same_verdict = output::same_front(&unit, verdict, s.len());
    output::put_line(
        rt,
        b'W',
        [
            k,
            w.units,
            u32::from(w.accepted),
            u32::from(same_verdict),
            u32::from(same_left),
        ],
    );
}

// The whole, and the three ways.
pub fn all(rt: &impl Print, s: &[u8]) {
    let mut verdict = [0u8; 65536];
    let mut left = [0u8; 65536];
    let b = build::build(s, &mut verdict, &mut left);
    output::put_answer(rt, b);
    way(rt, s, 1, b, &verdict, &left);
    way(rt, s, 2, b, &verdict, &left);
    way(rt, s, 3, b, &verdict, &left);
}
