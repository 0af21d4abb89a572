// The tests of a call of an unfolded name, and its surplus.
#![tactic(auto)]

ghost use Rattle.std.specs.Prelude.{◌≡◌, true, false, ◌+◌, ◌-◌, ◌≤◌, ◌<◌, eqb, length};
ghost use Rattle.meaning.specs.Program as program;
ghost use Rattle.meaning.specs.Rows as rows;
ghost use Rattle.table_access.specs.Tables as tables;
ghost use Rattle.resolve_outcomes.specs.Outcome as outcome;
ghost use Rattle.resolve_outcomes.specs.Scratch as scratch;
ghost use Rattle.resolve_outcomes.proofs.Laws.Call as call;
ghost use Rattle.resolve_kids.specs.Nodes as nodes;
ghost use Rattle.resolve_kids.specs.Params as params;
ghost use Rattle.resolve_calls.specs.CallsLaws.{Copy};

// The instance of Y line y's type takes a surplus: it is a `TApp`.
fn takes(t: &[u32], y: usize, d: usize, out: &[u16], at: usize, count: usize) -> bool
    requires tabled { tables.Tabled t.now × (y < rows.count_of program.type_line (tables.lines_in t.now)) }
    requires d_bound { (d < tables.decls_of (tables.lines_in t.now)) × (at + count ≤ length out.now) }
    ensures { result ≡ eqb (outcome.instance_head (params.params_of (tables.lines_in t.now) d) (scratch.part at count out.now) (nodes.type_of (tables.lines_in t.now) y)) 1 }
{
    let kind = table_access::type_number(t, y, 0);
    if kind == 8 {
        return true;
    }
    if kind == 3 {
        let v = table_access::type_number(t, y, 1) as usize;
        return resolve_kids::arguments::argument(t, d, out, at, count, v) % 4 == 1;
    }
    false
}

// Row 9: declaration d, a newtype or an abbreviation of Y line y's type, takes the `count`
// arguments from place `at` on.
pub fn fits(
    t: &[u32],
    newtype: bool,
    y: usize,
    d: usize,
    out: &[u16],
    at: usize,
    count: usize,
) -> bool
    requires tabled { tables.Tabled t.now × (y < rows.count_of program.type_line (tables.lines_in t.now)) }
    requires d_bound { (d < tables.decls_of (tables.lines_in t.now)) × (at + count ≤ length out.now) }
    ensures { result ≡ outcome.fits (scratch.part at count out.now) (call.unfolded newtype (params.params_of (tables.lines_in t.now) d) (nodes.type_of (tables.lines_in t.now) y)) }
{
    let n = resolve_kids::params(t, d);
    if count == n {
        return true;
    }
    if newtype {
        return false;
    }
    if count < n {
        return false;
    }
    takes(t, y, d, out, at, count)
}

// Copies n outcomes to a later place, if there is room.
pub fn copy(out: &mut [u16], from: usize, to: usize, n: usize) -> bool
    requires { (from + n ≤ to) × (to ≤ length out.old) }
    ensures { Copy from to n out.old out.new result }
{
    if to + n > out.len() {
        return false;
    }
    out.copy_within(from..from + n, to);
    true
}
