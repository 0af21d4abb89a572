// Whether a declaration leaves one: it is not erased, and every parameter of a newtype occurs in its normal form.
#![tactic(auto)]

ghost use Rattle.std.specs.Prelude.{◌≡◌, map, ◌+◌, ◌*◌, ◌≤◌, ◌<◌, length, take, drop};
ghost use Rattle.table_access.specs.Tables as tables;
ghost use Rattle.resolve_kids.specs.Params.{params_of};
ghost use Rattle.form_nodes.specs.Words.{node_of};
ghost use Rattle.form_emit.specs.Emit.{Forms, form_words};
ghost use Rattle.left_laws.specs.Lefts.{Ready, Flagged};
ghost use Rattle.left_flags.specs.Flags.{is_var, has_var, has_all, leaves};

use form_node_words::{place_of, state};
use form_nodes::{kind, own};

// A node is the variable of place i.
fn is_variable(w: u64, i: usize) -> bool
    ensures { result ≡ is_var i (node_of w) }
{
    kind(w) == 3 && own(w) as usize == i
}

// One of the n nodes from place `start` on is.
fn has_variable(f: &[u64], start: usize, n: usize, i: usize) -> bool
    requires { start + n ≤ length f.now }
    ensures { result ≡ has_var i (map node_of (take n (drop start f.now))) }
{
    // A for and no `any`: tried as `words.iter().any(|w| is_variable(*w, i))`, and the proof does not close: that `any` tells what `is_var` says of the words.
    let words = &f[start..start + n];
    for w in words {
        if is_variable(*w, i) {
            return true;
        }
    }
    false
}

// Each parameter of declaration d occurs in its normal form.
fn has_params(t: &[u32], f: &[u64], d: usize) -> bool
    requires { tables.Tabled t.now × Forms (tables.lines_in t.now) f.now × (d < tables.decls_of (tables.lines_in t.now)) }
    ensures { result ≡ has_all (params_of (tables.lines_in t.now) d) (params_of (tables.lines_in t.now) d) (map node_of (form_words f.now d)) }
{
    let start = f[2 * d] as usize;
    let n = f[2 * d + 1] as usize;
    let end = table_access::first_param(t, d + 1);
    for p in table_access::first_param(t, d)..end {
        let i = place_of(t, d, table_access::param(t, p));
        if !has_variable(f, start, n, i) {
            return false;
        }
    }
    true
}

// Declaration d leaves a declaration.
fn is_left(t: &[u32], u: &[u16], f: &[u64], d: usize) -> bool
    requires { tables.Tabled t.now × Forms (tables.lines_in t.now) f.now × (d < tables.decls_of (tables.lines_in t.now)) }
    ensures { result ≡ leaves (tables.lines_in t.now) u.now f.now d }
{
    let x = state(u, d);
    if x == 0 {
        return false;
    }
    if x != 1 {
        return true;
    }
    has_params(t, f, d)
}

// A cell for each declaration: 1 where it leaves one.
pub fn flags(t: &[u32], u: &[u16], f: &[u64], keep: &[u8], left: &mut [u8])
    requires { Ready (tables.lines_in t.now) t.now u.now f.now keep.now × (tables.decls_of (tables.lines_in t.now) ≤ length left.old) }
    ensures { Flagged (tables.lines_in t.now) left.new }
{
    let n = table_access::decls(t);
    for d in 0..n {
        left[d] = u8::from(is_left(t, u, f, d));
    }
}
