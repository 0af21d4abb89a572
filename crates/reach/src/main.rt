// The reach index as a program: a sheet on standard input, the build's line R on standard output, and behind it, where the sheet is
// accepted, line X of each declaration. A read or a write that fails is told on standard error.
#![tactic(auto)]

use std::io;
use std::io::ErrorKind;

// Line R, and on code 0 the lines X.
fn put_all(rt: &impl Print, sheet: &[u8]) -> io::Result<()> {
    let mut verdict = [0u8; 65536];
    let mut left = [0u8; 65536];
    let b = build::build(sheet, &mut verdict, &mut left);
    let mut line = [0u8; 32];
    sheet_answer::put_answer(&mut line, b.code, b.place, b.rounds);
    rt.write_all(&line)?;
    if b.code != 0 {
        return Ok(());
    }
    let mut lines = [0u8; 3072];
    let r = reach_index::reach_lines(sheet, &mut lines);
    let n = r.length;
    if n > lines.len() {
        return Err(io::Error::from(ErrorKind::InvalidData));
    }
    rt.write_all(&lines[0..n])
}

fn main(rt: HostRuntime) {
    let mut sheet = [0u8; 65537];
    let input = program_input::read_all(&mut rt.stdin(), &mut sheet);
    if let Some(e) = input.error {
        program_input::fail(&rt, b"reach: standard input", e);
        return;
    }
    let n = input.length;
    if let Err(e) = put_all(&rt, &sheet[0..n]) {
        program_input::fail(&rt, b"reach: standard output", e);
    }
}
