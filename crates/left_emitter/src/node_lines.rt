// The A and Y lines of one node of a type.
ghost use Rattle.std.specs.Prelude.{◌≡◌, map, ◌+◌, ◌*◌, ◌≤◌, length, get_or};
ghost use Rattle.sheet.specs.Output.{puts};
ghost use Rattle.form_laws.specs.Nodes.{taken, first_of};
ghost use Rattle.form_nodes.specs.Words.{node_of};
ghost use Rattle.left_emitter.specs.Lines.{y_row, arg_row, has_list, listed};

use choices::pick;
use form_nodes::{count, kind, own};
use sheet_writer::row_at;

// Element i, 0 where there is none.
fn nth(ns: &[u32], i: usize) -> u32
    ensures { result ≡ get_or ns.now i 0 }
{
    ns.get(i).copied().unwrap_or(0)
}

// The first of n A lines where a are written before, 0 where there is none.
fn first_of(a: u32, n: u32) -> u32
    ensures { result ≡ first_of a n }
{
    if n == 0 {
        return 0;
    }
    a
}

// The numbers of a node's Y line; ns are its children, and a the A lines that are written before its own. Kinds that stand close go one
// way, on which values are picked: which kind follows which cannot be foreseen.
pub fn y_numbers(w: u64, ns: &[u32], a: u32) -> [u32; 5]
    ensures { result ≡ y_row (node_of w) ns.now a }
{
    let k = kind(w);
    let n = count(w);
    let x = own(w);
    let l = nth(ns, 0);
    let r = nth(ns, 1);
    let f = first_of(a, n);
    match k {
        4 => [k, n, x, 0, 0],
        0..=6 => [k, x, 0, 0, 0],
        7..=9 => [
            k,
            pick(k == 9, f, pick(k == 8, x, l)),
            pick(k == 8, f, pick(k == 9, n, x)),
            pick(k == 7, r, pick(k == 8, n, 0)),
            0,
        ],
        _ => [
            k,
            pick(k == 10, l, pick(k == 12, l, x)),
            pick(k == 11, l, 0),
            0,
            0,
        ],
    }
}

// A node's children have A lines.
fn lists(w: u64) -> bool
    ensures { result ≡ has_list (node_of w) }
{
    matches!(kind(w), 8..=9)
}

// How many children a node has.
pub fn children(w: u64) -> usize
    ensures { result ≡ taken (node_of w) }
{
    if kind(w) <= 6 {
        return 0;
    }
    count(w) as usize
}

// An A line for each of ns, from line i of the output on.
fn put_args(out: &mut [u8], i: usize, ns: &[u32])
    requires { 32 * (i + length ns.now) ≤ length out.old }
    ensures { out.new ≡ puts 6 out.old i (map arg_row ns.now) }
{
    for (j, x) in ns.iter().enumerate() {
        row_at(out, i + j, b'A', [*x, 0, 0, 0, 0]);
    }
}

// The A lines of a node's children, from line i on, and how many they are.
pub fn put_list(out: &mut [u8], i: usize, w: u64, ns: &[u32]) -> usize
    requires { 32 * (i + length (listed (node_of w) ns.now)) ≤ length out.old }
    ensures { (result ≡ length (listed (node_of w) ns.now)) × (out.new ≡ puts 6 out.old i (map arg_row (listed (node_of w) ns.now))) }
{
    if !lists(w) {
        return 0;
    }
    put_args(out, i, ns);
    ns.len()
}
