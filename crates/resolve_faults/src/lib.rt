// Rows 9 and 10: the first type that does not resolve, in the order of the declarations.
#![tactic(auto)]

ghost use Rattle.std.specs.Prelude.{◌≡◌, ◌+◌, ◌-◌, ◌≤◌, ◌<◌, length};
ghost use Rattle.meaning.specs.Program as program;
ghost use Rattle.meaning.specs.Rows as rows;
ghost use Rattle.table_access.specs.Tables as tables;
ghost use Rattle.keep_layouts.specs.States as states;
ghost use Rattle.resolve_laws.specs.Resolver as resolver;
ghost use Rattle.resolve_memory.specs.Slots.{Slots};
ghost use Rattle.resolve_faults.specs.Faults as faults;

// What its body is.
const ABSTRACT: u32 = 0;

const ABBREVIATION: u32 = 1;

// The answer of the resolution, which says why there is no outcome, and of which declaration.
#[derive(Clone, Copy)]
pub struct First {
    pub answer: usize,
    pub decl: usize,
}

// The answer for the first kept one of declaration d's F lines from..end whose type does not resolve.
// A number and no Result: it passes on what `resolve_types::resolved` promises.
fn field_fault(
    t: &[u32],
    u: &[u16],
    keep: &[u8],
    d: usize,
    from: usize,
    end: usize,
    out: &mut [u16],
    slots: &mut [u16],
) -> usize
    requires kept { faults.Kept (tables.lines_in t.now) t.now u.now keep.now × (d < tables.decls_of (tables.lines_in t.now)) × (end ≤ rows.count_of program.field_line (tables.lines_in t.now)) }
    requires slots { Slots (resolver.call_of (tables.lines_in t.now) u.now) slots.old }
    ensures { faults.Went (tables.lines_in t.now) u.now d (length out.old) (states.kept_types (tables.lines_in t.now) keep.now from (end - from)) result slots.new }
{
    for f in from..end {
        if keep[f] == 1 {
            let y = table_access::field_number(t, f, 1) as usize;
            let r = resolve_types::resolved(t, u, out, slots, d, y);
            if r < resolve_types::VALUE {
                return r;
            }
        }
    }
    resolve_types::VALUE
}

// The same for all that is resolved of declaration d: a payload, an abbreviated type, or kept fields.
fn decl_fault(
    t: &[u32],
    u: &[u16],
    keep: &[u8],
    d: usize,
    out: &mut [u16],
    slots: &mut [u16],
) -> usize
    requires kept { faults.Kept (tables.lines_in t.now) t.now u.now keep.now × (d < tables.decls_of (tables.lines_in t.now)) }
    requires slots { Slots (resolver.call_of (tables.lines_in t.now) u.now) slots.old }
    ensures { faults.Went (tables.lines_in t.now) u.now d (length out.old) (states.resolves_of (tables.lines_in t.now) u.now keep.now d) result slots.new }
{
    let state = u[2 * d] as usize;
    if state == resolve_laws::GONE {
        return resolve_types::VALUE;
    }
    if state == resolve_laws::NEWTYPE {
        let y = u[2 * d + 1] as usize;
        return resolve_types::resolved(t, u, out, slots, d, y);
    }
    let kind = table_access::decl_number(t, d, 2);
    if kind == ABSTRACT {
        return resolve_types::VALUE;
    }
    if kind == ABBREVIATION {
        let y = table_access::decl_number(t, d, 4) as usize;
        return resolve_types::resolved(t, u, out, slots, d, y);
    }
    let from = table_access::first_field(t, d);
    let end = table_access::first_field(t, d + 1);
    field_fault(t, u, keep, d, from, end, out, slots)
}

// Resolves what is resolved of each declaration, up to the first type that does not resolve. With
// 1,024 places for each declaration and as many more it never answers that there is no room.
pub fn first_fault(
    t: &[u32],
    u: &[u16],
    keep: &[u8],
    out: &mut [u16],
    slots: &mut [u16],
) -> Result<(), First>
    requires kept { faults.Kept (tables.lines_in t.now) t.now u.now keep.now }
    requires slots { Slots (resolver.call_of (tables.lines_in t.now) u.now) slots.old }
    ensures { faults.Firstly (tables.lines_in t.now) u.now keep.now (length out.old) result }
{
    let n = table_access::decls(t);
    for d in 0..n {
        let answer = decl_fault(t, u, keep, d, out, slots);
        let stops = answer < resolve_types::VALUE;
        if stops {
            return Err(First { answer, decl: d });
        }
    }
    Ok(())
}
