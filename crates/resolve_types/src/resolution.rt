// Rows 9 and 10 by outcomes: recursion over Y lines and the outcomes of a declaration's arguments,
// stopped at the first fault.
ghost use Rattle.std.specs.Prelude.{◌≡◌, ◌+◌, ◌*◌, ◌≤◌, ◌<◌, eqb, get_or};
ghost use Rattle.model.specs.Cty as cty;
ghost use Rattle.meaning.specs.Program as program;
ghost use Rattle.meaning.specs.Rows as rows;
ghost use Rattle.table_access.specs.Tables as tables;
ghost use Rattle.resolve_outcomes.specs.Scratch as scratch;
ghost use Rattle.resolve_outcomes.proofs.Laws.Call as call;
ghost use Rattle.resolve_kids.specs.Params as params;
ghost use Rattle.resolve_kids.specs.Nodes as nodes;
ghost use Rattle.resolve_weights.specs.Weigh as weigh;
ghost use Rattle.resolve_memory.specs.Slots.{Slots};
ghost use Rattle.resolve_laws.specs.Resolver as resolver;
ghost use Rattle.keep_layouts.specs.States as states;

// The outcome of Y line y's type in declaration d, whose arguments have the `count` outcomes from
// place `at` on, the last `over` of them for the type itself. Places from `top` on are free.
#[cycle(apply_args_enter_node_once)]
pub fn node(
    t: &[u32],
    u: &[u16],
    out: &mut [u16],
    slots: &mut [u16],
    k: usize,
    y: usize,
    d: usize,
    at: usize,
    count: usize,
    over: usize,
    top: usize,
) -> usize
    requires place { resolver.Place (tables.lines_in t.now) t.now u.now y d }
    requires args { resolver.Args out.old at count top × (over ≤ count) × (nodes.kind_of (tables.lines_in t.now) y ≡ 3 → over ≡ 0) }
    requires slots { Slots (resolver.call_of (tables.lines_in t.now) u.now) slots.old }
    ensures { resolver.Found (resolver.eval_of (tables.lines_in t.now) u.now d (scratch.part at count out.old) y (resolver.last_of at count over out.old)) k (top + cty.size (nodes.type_of (tables.lines_in t.now) y) + over) top out.old out.new (resolver.call_of (tables.lines_in t.now) u.now) slots.new result }
{
    let kind = table_access::type_number(t, y, 0);
    let a = table_access::type_number(t, y, 1) as usize;
    if kind == 3 {
        return resolve_kids::arguments::argument(t, d, out, at, count, a);
    }
    let r = args(t, u, out, slots, k, y, d, at, count, top);
    if r < resolve_laws::VALUE {
        return r;
    }
    let n = resolve_kids::kids(t, y);
    if kind == 8 {
        if resolve_calls::copy(out, at + (count - over), top + n, over) {
            return apply(t, u, out, slots, k, a, top, n + over);
        }
        return resolve_laws::NO_ROOM;
    }
    resolve_outcomes::sums::built(out, top, n, 0)
}

// The outcomes of its parts, from left to right, to places from `top` on.
#[cycle(apply_args_enter_node_once)]
fn args(
    t: &[u32],
    u: &[u16],
    out: &mut [u16],
    slots: &mut [u16],
    k: usize,
    y: usize,
    d: usize,
    at: usize,
    count: usize,
    top: usize,
) -> usize
    requires place { resolver.Place (tables.lines_in t.now) t.now u.now y d }
    requires args { resolver.Args out.old at count top }
    requires slots { Slots (resolver.call_of (tables.lines_in t.now) u.now) slots.old }
    ensures { resolver.FoundAll (resolver.evals_of (tables.lines_in t.now) u.now d (scratch.part at count out.old) y (nodes.kids_of (tables.lines_in t.now) y)) k (top + cty.sizes (weigh.kid_types (tables.lines_in t.now) y (nodes.kids_of (tables.lines_in t.now) y))) top (nodes.kids_of (tables.lines_in t.now) y) out.old out.new (resolver.call_of (tables.lines_in t.now) u.now) slots.new result }
{
    let n = resolve_kids::kids(t, y);
    let mut next = top;
    let mut last = y;
    for i in 0..n {
        if next >= out.len() {
            return resolve_laws::NO_ROOM;
        }
        let kid = resolve_kids::kid(t, y, i);
        let r = once(t, u, out, slots, k, kid, d, at, count, last, next);
        if r < resolve_laws::VALUE {
            return r;
        }
        out[next] = r as u16;
        next += 1;
        last = kid;
    }
    resolve_laws::VALUE
}

// The outcome of a part, Y line y's type. Where the part before it is the same Y line, its outcome
// stands before place `top`, and is not found anew.
#[cycle(apply_args_enter_node_once)]
fn once(
    t: &[u32],
    u: &[u16],
    out: &mut [u16],
    slots: &mut [u16],
    k: usize,
    y: usize,
    d: usize,
    at: usize,
    count: usize,
    last: usize,
    top: usize,
) -> usize
    requires place { resolver.Place (tables.lines_in t.now) t.now u.now y d }
    requires args { resolver.Args out.old at count top × resolver.Again (tables.lines_in t.now) u.now d (scratch.part at count out.old) y last top out.old }
    requires slots { Slots (resolver.call_of (tables.lines_in t.now) u.now) slots.old }
    ensures { resolver.Found (resolver.eval_of (tables.lines_in t.now) u.now d (scratch.part at count out.old) y (resolver.last_of at count 0 out.old)) k (top + cty.size (nodes.type_of (tables.lines_in t.now) y) + 0) top out.old out.new (resolver.call_of (tables.lines_in t.now) u.now) slots.new result }
{
    if y == last {
        return out[top - 1] as usize;
    }
    node(t, u, out, slots, k, y, d, at, count, 0, top)
}

// The outcome of name n at the `count` outcomes from place `at` on. Places behind them are free.
#[cycle(apply_args_enter_node_once)]
fn apply(
    t: &[u32],
    u: &[u16],
    out: &mut [u16],
    slots: &mut [u16],
    k: usize,
    n: usize,
    at: usize,
    count: usize,
) -> usize
    requires setup { resolver.Setup (tables.lines_in t.now) t.now u.now × (n < rows.count_of program.name_line (tables.lines_in t.now)) }
    requires args { resolver.Args out.old at count (at + count) }
    requires slots { Slots (resolver.call_of (tables.lines_in t.now) u.now) slots.old }
    ensures { resolver.Found (resolver.call_of (tables.lines_in t.now) u.now n (scratch.part at count out.old)) k (at + count) (at + count) out.old out.new (resolver.call_of (tables.lines_in t.now) u.now) slots.new result }
{
    let known = crate::recalls::answered(t, u, out, slots, n, at, count);
    if known != 0 {
        return known;
    }
    let d = table_access::decl_of(t, n);
    let r = enter(t, u, out, slots, k, d, at, count);
    resolve_memory::remembering::remember(slots, n, out, at, count, r);
    r
}

// The outcome of a call of declaration d, which is unfolded.
#[cycle(apply_args_enter_node_once)]
fn enter(
    t: &[u32],
    u: &[u16],
    out: &mut [u16],
    slots: &mut [u16],
    k: usize,
    d: usize,
    at: usize,
    count: usize,
) -> usize
    requires place { resolver.Place (tables.lines_in t.now) t.now u.now (get_or u.now (2 * d + 1) 0) d × (states.unfold_at (tables.lines_in t.now) u.now d ≡ call.unfolded (eqb (get_or u.now (2 * d) 3) 1) (params.params_of (tables.lines_in t.now) d) (nodes.type_of (tables.lines_in t.now) (get_or u.now (2 * d + 1) 0))) }
    requires args { resolver.Args out.old at count (at + count) }
    requires slots { Slots (resolver.call_of (tables.lines_in t.now) u.now) slots.old }
    ensures { resolver.Found (resolver.enter_of (tables.lines_in t.now) u.now d (scratch.part at count out.old)) k (at + count) (at + count) out.old out.new (resolver.call_of (tables.lines_in t.now) u.now) slots.new result }
{
    let y = crate::recalls::body(u, d);
    let r = crate::entries::entry(t, u, k, y, d, out, at, count);
    if r != crate::entries::OPEN {
        return r;
    }
    let over = count - resolve_kids::params(t, d);
    node(t, u, out, slots, k - 1, y, d, at, count, over, at + count)
}
