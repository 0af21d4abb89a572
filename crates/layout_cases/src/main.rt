// Builds each sheet that an argument names. At first as the program `layout` does: line R and, on code 0, both sheets. After the word
// `-limits` with outputs as long as needed and a byte shorter; after `-units` cut into units, built in turn.
#![tactic(auto)]

mod limits;
mod output;
mod units;

use std::env::Env;
use std::rt::Files;

// What is done with a sheet.
#[derive(Clone, Copy)]
enum Mode {
    Whole,
    Limits,
    Units,
}

fn whole(rt: &impl Print, sheet: &[u8]) {
    let mut verdict = [0u8; 65536];
    let mut left = [0u8; 65536];
    let b = build::build(sheet, &mut verdict, &mut left);
    output::put_all(rt, b, &verdict, &left);
}

// The sheet in the file of this name.
fn case(rt: &(impl Files + Print + Eprint), path: &[u8], mode: Mode) {
    let mut sheet = [0u8; 65569];
    let Some(n) = program_input::read_file(rt, path, &mut sheet) else {
        return;
    };
    match mode {
        Mode::Whole => whole(rt, &sheet[..n]),
        Mode::Limits => limits::all(rt, &sheet[..n]),
        Mode::Units => units::all(rt, &sheet[..n]),
    }
}

// Argument i, a sheet's name or a word, and what is done from there on.
fn word(rt: &(impl Env + Files + Print + Eprint), i: usize, mode: Mode) -> Mode {
    let mut path = [0u8; 4096];
    let Ok(length) = rt.arg(i, &mut path) else {
        return mode;
    };
    let word = &path[..length];
    if word == b"-limits".as_slice() {
        return Mode::Limits;
    }
    if word == b"-units".as_slice() {
        return Mode::Units;
    }
    if length > 0 && word[0] != b'-' {
        case(rt, word, mode);
    }
    mode
}

fn main(rt: HostRuntime) {
    let mut mode = Mode::Whole;
    for i in 1..program_input::arg_count(&rt) {
        mode = word(&rt, i, mode);
    }
}
