// What is written of an answer, and how bytes are compared. A write that fails is not told.
ghost use Rattle.std.specs.Prelude.{◌≤◌, length};

use answer_built::Built;

// A line of a letter and five numbers.
pub fn put_line(rt: &impl Print, letter: u8, numbers: [u32; 5]) {
    let mut line = [0u8; 32];
    sheet_writer::put_row(&mut line, letter, numbers);
    let _ = rt.write_all(&line);
}

// The first n bytes, all where n is more.
pub fn put(rt: &impl Print, bytes: &[u8], n: usize) {
    let _ = rt.write_all(&bytes[..n.min(bytes.len())]);
}

// Line R.
pub fn put_answer(rt: &impl Print, b: Built) {
    let mut line = [0u8; 32];
    sheet_answer::put_answer(&mut line, b.code, b.place, b.rounds);
    let _ = rt.write_all(&line);
}

// Line R and, on code 0, both sheets.
pub fn put_all(rt: &impl Print, b: Built, verdict: &[u8], left: &[u8]) {
    put_answer(rt, b);
    if b.code != 0 {
        return;
    }
    put(rt, verdict, b.verdict);
    put(rt, left, b.left);
}

// The first n bytes of both are there and the same.
pub fn same_front(a: &[u8], b: &[u8], n: usize) -> bool {
    n <= a.len() && n <= b.len() && a[..n] == b[..n]
}

// Every byte from place `from` on is x.
pub fn all_are(a: &[u8], from: usize, x: u8) -> bool {
    a.iter().skip(from).all(|y| *y == x)
}
