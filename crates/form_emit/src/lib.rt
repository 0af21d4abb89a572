// The nodes of a resolved type as words, from its Y line and the normal forms of unfolded declarations: no body is
// entered, and an argument that is dropped is not looked at. A place past the end of the array says that there is no room.
#![tactic(auto)]

mod words;

ghost use Rattle.std.specs.Prelude.{◌≡◌, ◌+◌, ◌*◌, ◌-◌, ◌≤◌, ◌<◌, length, take, drop};
ghost use Rattle.table_access.specs.Tables as tables;
ghost use Rattle.resolve_kids.specs.Nodes.{kids_of, kind_of};
ghost use Rattle.form_puts.specs.Put.{Put};
ghost use Rattle.form_puts.specs.Stands.{Stands};
ghost use Rattle.form_emit.specs.Emit.{run, step, filled, grown, form_words, words, kid_words, Asked};
ghost use Rattle.form_emit.specs.Filling.{Argument};

use crate::words::{argument_line, leaf_word, left_word};
use form_node_words::{own_word, state};
use form_nodes::{count, kind, own, pack};
use form_puts::{again, put};
use resolve_kids::{kid, kids};

// The type of Y line y in declaration d, from place `at` on.
pub fn emit(
    t: &[u32],
    u: &[u16],
    f: &[u64],
    y: usize,
    d: usize,
    places: bool,
    out: &mut [u64],
    at: usize,
) -> usize
    requires { Asked (tables.lines_in t.now) t.now u.now f.now y d × (at ≤ length out.old) }
    ensures { Put (words (tables.lines_in t.now) u.now f.now d places y) out.old at result out.new }
{
    let k = table_access::type_number(t, y, 0);
    if k < 7 {
        return put(out, at, leaf_word(t, y, d, places));
    }
    emit_tree(t, u, f, y, d, places, out, at)
}

// A type that may have parts.
#[cycle(emit_form_emit_kids_emit_name_emit_node_emit_part_emit_surplus_emit_tree)]
fn emit_tree(
    t: &[u32],
    u: &[u16],
    f: &[u64],
    y: usize,
    d: usize,
    places: bool,
    out: &mut [u64],
    at: usize,
) -> usize
    requires asked { Asked (tables.lines_in t.now) t.now u.now f.now y d × (at ≤ length out.old) }
    requires bound { 7 ≤ kind_of (tables.lines_in t.now) y }
    ensures { Put (words (tables.lines_in t.now) u.now f.now d places y) out.old at result out.new }
{
    let k = table_access::type_number(t, y, 0);
    if k == 8 {
        return emit_name(t, u, f, y, d, places, out, at);
    }
    let r = emit_kids(t, u, f, y, d, places, 0, out, at);
    if r > out.len() {
        return r;
    }
    put(out, r, own_word(t, y))
}

// A name with its arguments.
#[cycle(emit_form_emit_kids_emit_name_emit_node_emit_part_emit_surplus_emit_tree)]
fn emit_name(
    t: &[u32],
    u: &[u16],
    f: &[u64],
    y: usize,
    d: usize,
    places: bool,
    out: &mut [u64],
    at: usize,
) -> usize
    requires asked { Asked (tables.lines_in t.now) t.now u.now f.now y d × (at ≤ length out.old) }
    requires y_value { kind_of (tables.lines_in t.now) y ≡ 8 }
    ensures { Put (words (tables.lines_in t.now) u.now f.now d places y) out.old at result out.new }
{
    let n = table_access::type_number(t, y, 1);
    let m = table_access::decl_of(t, n as usize);
    let x = state(u, m);
    if x == 0 {
        return put(out, at, pack(0, 0, 0));
    }
    if x > 2 {
        let r = emit_kids(t, u, f, y, d, places, 0, out, at);
        if r > out.len() {
            return r;
        }
        return put(out, r, pack(8, kids(t, y) as u32, n));
    }
    let r = emit_form(t, u, f, y, d, places, m, out, at);
    if r > out.len() {
        return r;
    }
    let k = resolve_kids::params(t, m);
    if kids(t, y) <= k {
        return r;
    }
    emit_surplus(t, u, f, y, d, places, k, out, at, r)
}

// The arguments past the first k, attached to what stands from place `at` to place r, if that ends in a `TApp`.
#[cycle(emit_form_emit_kids_emit_name_emit_node_emit_part_emit_surplus_emit_tree)]
fn emit_surplus(
    t: &[u32],
    u: &[u16],
    f: &[u64],
    y: usize,
    d: usize,
    places: bool,
    k: usize,
    out: &mut [u64],
    at: usize,
    r: usize,
) -> usize
    requires asked { Asked (tables.lines_in t.now) t.now u.now f.now y d × (at ≤ r) × (r ≤ length out.old) × (k ≤ kids_of (tables.lines_in t.now) y) }
    requires y_value { kind_of (tables.lines_in t.now) y ≡ 8 }
    ensures { Put (grown (take (r - at) (drop at out.old)) (kids_of (tables.lines_in t.now) y - k) (run (kid_words (tables.lines_in t.now) u.now f.now d places y) k (kids_of (tables.lines_in t.now) y - k))) out.old at result out.new }
{
    if r == at {
        return r;
    }
    let w = out[r - 1];
    if kind(w) != 8 {
        return r;
    }
    let n = kids(t, y) - k;
    let e = emit_kids(t, u, f, y, d, places, k, out, r - 1);
    if e > out.len() {
        return e;
    }
    put(out, e, pack(8, count(w) + n as u32, own(w)))
}

// A normal form with the arguments put in.
#[cycle(emit_form_emit_kids_emit_name_emit_node_emit_part_emit_surplus_emit_tree)]
fn emit_form(
    t: &[u32],
    u: &[u16],
    f: &[u64],
    y: usize,
    d: usize,
    places: bool,
    m: usize,
    out: &mut [u64],
    at: usize,
) -> usize
    requires { Asked (tables.lines_in t.now) t.now u.now f.now y d × (at ≤ length out.old) × (m < tables.decls_of (tables.lines_in t.now)) }
    ensures { Put (filled (kid_words (tables.lines_in t.now) u.now f.now d places y) (kids_of (tables.lines_in t.now) y) (form_words f.now m)) out.old at result out.new }
{
    let start = f[2 * m] as usize;
    let n = f[2 * m + 1] as usize;
    let mut last = y;
    let mut from = at;
    let mut end = at;
    let mut r = at;
    for i in 0..n {
        let w = f[start + i];
        let p = argument_line(t, y, w);
        let e = emit_node(t, u, f, y, d, places, w, p, last, from, end, out, r);
        if e > out.len() {
            return e;
        }
        if p < y {
            last = p;
            from = r;
            end = e;
        }
        r = e;
    }
    r
}

// A word of a normal form: the argument for a parameter, of Y line p, or the word. Y line `last` stands from place `from` to place
// `end` already, where it is below y.
#[cycle(emit_form_emit_kids_emit_name_emit_node_emit_part_emit_surplus_emit_tree)]
fn emit_node(
    t: &[u32],
    u: &[u16],
    f: &[u64],
    y: usize,
    d: usize,
    places: bool,
    w: u64,
    p: usize,
    last: usize,
    from: usize,
    end: usize,
    out: &mut [u64],
    at: usize,
) -> usize
    requires asked { Asked (tables.lines_in t.now) t.now u.now f.now y d × (at ≤ length out.old) × Argument (tables.lines_in t.now) y w p }
    requires stands { last < y → Stands (words (tables.lines_in t.now) u.now f.now d places last) out.old from end at }
    ensures { Put (step (kid_words (tables.lines_in t.now) u.now f.now d places y) (kids_of (tables.lines_in t.now) y) w) out.old at result out.new }
{
    if p < y {
        return emit_part(t, u, f, p, d, places, last, from, end, out, at);
    }
    put(out, at, left_word(w))
}

// The type of Y line y, which stands from place `from` to place `end` already, where it is `last`.
#[cycle(emit_form_emit_kids_emit_name_emit_node_emit_part_emit_surplus_emit_tree)]
fn emit_part(
    t: &[u32],
    u: &[u16],
    f: &[u64],
    y: usize,
    d: usize,
    places: bool,
    last: usize,
    from: usize,
    end: usize,
    out: &mut [u64],
    at: usize,
) -> usize
    requires asked { Asked (tables.lines_in t.now) t.now u.now f.now y d × (at ≤ length out.old) }
    requires stands { last ≡ y → Stands (words (tables.lines_in t.now) u.now f.now d places y) out.old from end at }
    ensures { Put (words (tables.lines_in t.now) u.now f.now d places y) out.old at result out.new }
{
    if last == y {
        return again(out, from, end, at);
    }
    let k = table_access::type_number(t, y, 0);
    if k < 7 {
        return put(out, at, leaf_word(t, y, d, places));
    }
    emit_tree(t, u, f, y, d, places, out, at)
}

// The parts from part `from` on.
#[cycle(emit_form_emit_kids_emit_name_emit_node_emit_part_emit_surplus_emit_tree)]
fn emit_kids(
    t: &[u32],
    u: &[u16],
    f: &[u64],
    y: usize,
    d: usize,
    places: bool,
    from: usize,
    out: &mut [u64],
    at: usize,
) -> usize
    requires { Asked (tables.lines_in t.now) t.now u.now f.now y d × (at ≤ length out.old) × (from ≤ kids_of (tables.lines_in t.now) y) }
    ensures { Put (run (kid_words (tables.lines_in t.now) u.now f.now d places y) from (kids_of (tables.lines_in t.now) y - from)) out.old at result out.new }
{
    let n = kids(t, y);
    let mut last = y;
    let mut start = at;
    let mut r = at;
    for i in from..n {
        let p = kid(t, y, i);
        let e = emit_part(t, u, f, p, d, places, last, start, r, out, r);
        if e > out.len() {
            return e;
        }
        last = p;
        start = r;
        r = e;
    }
    r
}
