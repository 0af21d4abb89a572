// What a name's cells say, and the calls that are answered with nothing unfolded.
ghost use Rattle.std.specs.Prelude.{◌≡◌, ◌+◌, ◌*◌, ◌≤◌, ◌<◌, length, get_or};
ghost use Rattle.meaning.specs.Program as program;
ghost use Rattle.meaning.specs.Rows as rows;
ghost use Rattle.resolve_memory.specs.Slots.{Slots};
ghost use Rattle.resolve_laws.specs.Resolver as resolver;
ghost use Rattle.table_access.specs.Tables.{lines_in};

// The Y line that declaration d's name is unfolded to.
pub fn body(u: &[u16], d: usize) -> usize
    requires { (d ≤ 512) × (2 * d + 1 < length u.now) }
    ensures { result ≡ get_or u.now (2 * d + 1) 0 }
{
    u[2 * d + 1] as usize
}

// The outcome of name n at the `count` outcomes from place `at` on, where it is not unfolded or the
// call is remembered; else 0.
pub fn answered(
    t: &[u32],
    u: &[u16],
    out: &[u16],
    slots: &[u16],
    n: usize,
    at: usize,
    count: usize,
) -> usize
    requires setup { resolver.Setup (lines_in t.now) t.now u.now × (n < rows.count_of program.name_line (lines_in t.now)) }
    requires args { resolver.Args out.now at count (at + count) }
    requires slots { Slots (resolver.call_of (lines_in t.now) u.now) slots.now }
    ensures { resolver.Answered (lines_in t.now) u.now n at count out.now slots.now result }
{
    let d = table_access::decl_of(t, n);
    let what = form_node_words::state(u, d);
    if what == resolve_laws::GONE {
        return resolve_kids::arguments::ONE;
    }
    if what > resolve_laws::ABBREVIATION {
        return resolve_outcomes::sums::built(out, at, count, 1);
    }
    resolve_memory::recall(slots, n, out, at, count)
}
