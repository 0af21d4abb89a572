// Reads each sheet that an argument names, and writes what is read of it.
#![tactic(auto)]

ghost use Rattle.std.specs.Prelude.{◌≤◌, length};

use sheet_access::NoNumber;
use sheet_parts::LINE;
use std::env::Env;
use std::rt::Files;

// A number past every line: 32 times it does not fit.
const FAR: usize = 18446744073709551615;

// A write that fails is not told.
fn put(rt: &impl Print, bytes: &[u8]) {
    let _ = rt.write_all(bytes);
}

fn put_columns(rt: &impl Print, columns: &[u8; 7]) {
    put(rt, columns);
}

// A number in six columns, with a space before it.
fn put_number(rt: &impl Print, n: u32) {
    let mut columns = [32u8; 7];
    sheet_digits::write_number(&mut columns[1..7], n);
    put_columns(rt, &columns);
}

fn put_place(rt: &impl Print, n: usize) {
    if n > 999999 {
        put_number(rt, 999999);
    } else {
        put_number(rt, n as u32);
    }
}

fn put_letter(rt: &impl Print, x: Option<u8>) {
    match x {
        Some(b) => put(rt, &[b]),
        None => put(rt, b"past"),
    }
}

fn put_cell(rt: &impl Print, c: Result<u32, NoNumber>) {
    match c {
        Ok(n) => put_number(rt, n),
        Err(NoNumber::Bad) => put(rt, b"    bad"),
        Err(NoNumber::Past) => put(rt, b"   past"),
    }
}

// The numbers of line i of any bytes, and one too many.
fn put_cells(rt: &impl Print, s: &[u8], i: usize) {
    for k in 0..6 {
        put_cell(rt, sheet_access::number_at(s, i, k));
    }
}

// Line i of any bytes: its letter, its numbers, the name of that number, and its text.
fn put_line(rt: &impl Print, s: &[u8], i: usize) {
    put(rt, b"line");
    put_place(rt, i);
    put(rt, b" ");
    put_letter(rt, sheet_access::letter_at(s, i));
    put_cells(rt, s, i);
    put(rt, b" [");
    put(rt, sheet_names::name(s, i));
    put(rt, b"] [");
    put(rt, sheet_access::text_at(s, i));
    put(rt, b"]\n");
}

// All lines of any bytes, and two places past the end.
fn put_lines(rt: &impl Print, s: &[u8]) {
    for i in 0..s.len() / LINE {
        put_line(rt, s, i);
    }
    put_line(rt, s, s.len() / LINE);
    put_line(rt, s, FAR);
}

fn put_sheet(rt: &impl Print, s: &[u8])
    requires { length s.now ≤ 1024 }
{
    if walk_cells::format::row1(s) {
        put(rt, b"row 1\n");
    }
    put(rt, b"row 2 at");
    let mut cells = [0u32; 192];
    put_place(rt, walk_decode::decode_lines(s, 6, &mut cells));
    put(rt, b"\n");
    put_lines(rt, s);
}

// One case: the file that argument i names.
fn case(rt: &(impl Env + Files + Print + Eprint), i: usize) {
    let mut path = [0u8; 4096];
    let Ok(length) = rt.arg(i, &mut path) else {
        return;
    };
    let mut sheet = [0u8; 1024];
    let Some(n) = program_input::read_file(rt, &path[..length], &mut sheet) else {
        return;
    };
    put(rt, b"sheet ");
    put(rt, &path[..length]);
    put(rt, b"\n");
    put_sheet(rt, &sheet[..n]);
}

fn main(rt: HostRuntime) {
    for i in 1..program_input::arg_count(&rt) {
        case(&rt, i);
    }
}
