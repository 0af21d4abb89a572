// Outputs as long as needed and a byte shorter. What they held is 0xA5 throughout: line K says whether the bytes are as they were, of
// the verdict output and of the left output, past what is written and, on a refusal, all of them.
use crate::output;
use answer_built::Built;

const OLD: u8 = 0xA5;

// A build with the first v and l bytes of the outputs.
fn built(
    rt: &impl Print,
    sheet: &[u8],
    verdict: &mut [u8],
    v: usize,
    left: &mut [u8],
    l: usize,
) -> Built {
    let a = v.min(verdict.len());
    let e = l.min(left.len());
    let b = build::build(sheet, &mut verdict[0..a], &mut left[0..e]);
    output::put_all(rt, b, verdict, left);
    let same_verdict = output::all_are(verdict, b.verdict, OLD);
    let same_left = output::all_are(left, b.left, OLD);
    output::put_line(
        rt,
        b'K',
        [u32::from(same_verdict), u32::from(same_left), 0, 0, 0],
    );
    b
}

// A build with outputs of these lengths.
fn with(rt: &impl Print, sheet: &[u8], v: usize, l: usize) -> Built {
    let mut verdict = [OLD; 65536];
    let mut left = [OLD; 65536];
    built(rt, sheet, &mut verdict, v, &mut left, l)
}

// With room to spare, as long as needed, the verdict output a byte short, the left output a byte short, both.
pub fn all(rt: &impl Print, sheet: &[u8]) {
    let b = with(rt, sheet, 65536, 65536);
    if b.code != 0 {
        return;
    }
    let v = b.verdict;
    let l = b.left;
    with(rt, sheet, v, l);
    with(rt, sheet, v.saturating_sub(1), l);
    with(rt, sheet, v, l.saturating_sub(1));
    with(rt, sheet, v.saturating_sub(1), l.saturating_sub(1));
}
