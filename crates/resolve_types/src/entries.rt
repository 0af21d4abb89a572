// The tests of a call of a declaration that is unfolded, in the order of the rows.
ghost use Rattle.std.specs.Prelude.{◌≡◌, ◌+◌, ◌*◌, eqb, get_or};
ghost use Rattle.resolve_outcomes.proofs.Laws.Call as call;
ghost use Rattle.resolve_kids.specs.Params as params;
ghost use Rattle.resolve_kids.specs.Nodes as nodes;
ghost use Rattle.resolve_laws.specs.Resolver as resolver;
ghost use Rattle.keep_layouts.specs.States as states;
ghost use Rattle.table_access.specs.Tables.{lines_in};

// The body has the answer. No test answers that there is no room.
pub const OPEN: usize = 1;

// Row 9, the fuel, row 10, and a bare parameter with a surplus; Y line y is the body of declaration d.
pub fn entry(
    t: &[u32],
    u: &[u16],
    k: usize,
    y: usize,
    d: usize,
    out: &[u16],
    at: usize,
    count: usize,
) -> usize
    requires place { resolver.Place (lines_in t.now) t.now u.now y d × (states.unfold_at (lines_in t.now) u.now d ≡ call.unfolded (eqb (get_or u.now (2 * d) 3) 1) (params.params_of (lines_in t.now) d) (nodes.type_of (lines_in t.now) y)) }
    requires args { resolver.Args out.now at count (at + count) }
    ensures { resolver.Entered (lines_in t.now) u.now y d at count out.now k result }
{
    let newtype = form_node_words::state(u, d) == resolve_laws::NEWTYPE;
    if !resolve_calls::fits(t, newtype, y, d, out, at, count) {
        return resolve_laws::NINE;
    }
    if k == 0 {
        return resolve_laws::NO_FUEL;
    }
    let n = resolve_kids::params(t, d);
    let over = count - n;
    let from = resolve_outcomes::sums::total(out, at + n, over, 0);
    let w = resolve_weights::weigh(t, y, d, out, at, count, from);
    if w > resolve_outcomes::sums::LIMIT {
        return resolve_laws::TEN;
    }
    if over == 0 {
        return OPEN;
    }
    if table_access::type_number(t, y, 0) == 3 {
        return 4 * w + 1;
    }
    OPEN
}
