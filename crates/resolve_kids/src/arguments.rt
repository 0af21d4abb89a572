// The argument of a parameter, among the outcomes of a declaration's arguments.
ghost use Rattle.std.specs.Prelude.{◌≡◌, ◌+◌, ◌≤◌, ◌<◌, length};
ghost use Rattle.table_access.specs.Tables as tables;
ghost use Rattle.resolve_outcomes.specs.Outcome as outcome;
ghost use Rattle.resolve_outcomes.specs.Scratch as scratch;
ghost use Rattle.resolve_kids.specs.Params as params;

// The outcome of a type of one node that is no `TApp`.
pub const ONE: usize = 4;

// The outcome of variable v in declaration d, of whose arguments `count` outcomes stand from place
// `at` on. A variable that is not bound has one node.
pub fn argument(t: &[u32], d: usize, out: &[u16], at: usize, count: usize, v: usize) -> usize
    requires { tables.Tabled t.now × (d < tables.decls_of (tables.lines_in t.now)) × (at + count ≤ length out.now) }
    ensures { (result ≡ outcome.argument (params.params_of (tables.lines_in t.now) d) (scratch.part at count out.now) v) × (result < 65536) }
{
    let first = table_access::first_param(t, d);
    let end = table_access::first_param(t, d + 1);
    for i in 0..count {
        if first + i >= end {
            return ONE;
        }
        if table_access::param(t, first + i) == v {
            return out[at + i] as usize;
        }
    }
    ONE
}
