// The layout pass as a program: a sheet on standard input, line R on standard output, and behind it both sheets where the sheet is
// accepted. A read or a write that fails is told on standard error.
#![tactic(auto)]

use answer_built::Built;
use std::io;

// The first n bytes, all where n is more.
fn put(rt: &impl Print, bytes: &[u8], n: usize) -> io::Result<()> {
    rt.write_all(&bytes[..n.min(bytes.len())])
}

// Line R, and on code 0 both sheets.
fn put_all(rt: &impl Print, b: Built, verdict: &[u8], left: &[u8]) -> io::Result<()> {
    let mut line = [0u8; 32];
    sheet_answer::put_answer(&mut line, b.code, b.place, b.rounds);
    put(rt, &line, 32)?;
    if b.code != 0 {
        return Ok(());
    }
    put(rt, verdict, b.verdict)?;
    put(rt, left, b.left)
}

fn main(rt: HostRuntime) {
    let mut sheet = [0u8; 65537];
    let input = program_input::read_all(&mut rt.stdin(), &mut sheet);
    if let Some(e) = input.error {
        program_input::fail(&rt, b"layout: standard input", e);
        return;
    }
    let n = input.length;
    let mut verdict = [0u8; 65536];
    let mut left = [0u8; 65536];
    let b = build::build(&sheet[0..n], &mut verdict, &mut left);
    if let Err(e) = put_all(&rt, b, &verdict, &left) {
        program_input::fail(&rt, b"layout: standard output", e);
    }
}
