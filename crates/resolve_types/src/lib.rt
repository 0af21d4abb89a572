// Rows 9 and 10 by outcomes, of a type as it stands in its declaration. An answer is a number: below
// `VALUE` it says why there is no outcome.
#![tactic(auto)]

mod entries;
mod recalls;
mod resolution;

ghost use Rattle.resolve_memory.specs.Slots.{Slots};
ghost use Rattle.resolve_laws.specs.Resolver as resolver;
ghost use Rattle.table_access.specs.Tables.{lines_in};

pub const NO_FUEL: usize = resolve_laws::NO_FUEL;

pub const NO_ROOM: usize = resolve_laws::NO_ROOM;

pub const NINE: usize = resolve_laws::NINE;

pub const TEN: usize = resolve_laws::TEN;

pub const VALUE: usize = resolve_laws::VALUE;

// The outcome of Y line y's type as it stands in declaration d. With 1,024 places for each declaration
// and as many more there is room for it.
pub fn resolved(
    t: &[u32],
    u: &[u16],
    out: &mut [u16],
    slots: &mut [u16],
    d: usize,
    y: usize,
) -> usize
    requires place { resolver.Place (lines_in t.now) t.now u.now y d }
    requires slots { Slots (resolver.call_of (lines_in t.now) u.now) slots.old }
    ensures { resolver.Found (resolver.type_of_decl (lines_in t.now) u.now d y) (resolver.fuel_of (lines_in t.now)) 0 0 out.old out.new (resolver.call_of (lines_in t.now) u.now) slots.new result }
{
    if resolve_weights::weigh(t, y, d, out, 0, 0, 0) > resolve_outcomes::sums::LIMIT {
        return TEN;
    }
    let fuel = table_access::decls(t);
    resolution::node(t, u, out, slots, fuel, y, d, 0, 0, 0, 0)
}
