// The reach index of each sheet that an argument names: what the program `reach` prints and, where the call accepts the sheet, the two words
// of each declaration's set. A word that should have kept what it held, or should be 0, is told; a write that fails is not.
#![tactic(auto)]

use answer::Refusal;
use std::env::Env;
use std::rt::Files;

// What the words hold before a call.
const HELD: u64 = 11936128518282651045;

// The build's line R, with outputs as the program `reach` has them; and its code.
fn put_answer(rt: &impl Print, sheet: &[u8]) -> u32 {
    let mut verdict = [0u8; 65536];
    let mut left = [0u8; 65536];
    let b = build::build(sheet, &mut verdict, &mut left);
    let mut line = [0u8; 32];
    sheet_answer::put_answer(&mut line, b.code, b.place, b.rounds);
    let _ = rt.write_all(&line);
    b.code
}

// The lines X, where the build accepted the sheet; and how many declarations there are.
fn put_lines(rt: &impl Print, sheet: &[u8], shown: bool) -> usize {
    let mut lines = [0u8; 3072];
    let r = reach_index::reach_lines(sheet, &mut lines);
    let n = r.length;
    if n > lines.len() {
        return 0;
    }
    if shown {
        let _ = rt.write_all(&lines[0..n]);
    }
    n / 32
}

// The words of the first n sets, two in a line, and whether all others are 0.
fn put_words(rt: &impl Print, sets: &[u64], n: usize) {
    for (i, word) in sets.iter().enumerate() {
        if i / 2 < n {
            let _ = rt.print(*word);
            let _ = rt.write_all(if i % 2 == 0 { b" " } else { b"\n" });
        } else if *word != 0 {
            let _ = rt.write_all(b"a word is not 0\n");
        }
    }
}

// Whether every word is as it was.
fn put_kept(rt: &impl Print, sets: &[u64]) {
    for word in sets {
        if *word != HELD {
            let _ = rt.write_all(b"a word was changed\n");
        }
    }
}

fn put_sets(rt: &impl Print, sheet: &[u8], n: usize) {
    let mut sets = [HELD; 192];
    let r = reach_index::reach_index(sheet, &mut sets);
    match r {
        Refusal::Accepted => put_words(rt, &sets, n),
        Refusal::Refused { code: _, place: _ } => put_kept(rt, &sets),
    }
}

// The sheet in the file of this name.
fn case(rt: &(impl Files + Print + Eprint), path: &[u8]) {
    let mut sheet = [0u8; 65569];
    let Some(n) = program_input::read_file(rt, path, &mut sheet) else {
        return;
    };
    let code = put_answer(rt, &sheet[..n]);
    let decls = put_lines(rt, &sheet[..n], code == 0);
    put_sets(rt, &sheet[..n], decls);
}

fn argument(rt: &(impl Env + Files + Print + Eprint), i: usize) {
    let mut path = [0u8; 4096];
    let Ok(length) = rt.arg(i, &mut path) else {
        return;
    };
    if length == 0 {
        return;
    }
    case(rt, &path[..length]);
}

fn main(rt: HostRuntime) {
    for i in 1..program_input::arg_count(&rt) {
        argument(&rt, i);
    }
}
