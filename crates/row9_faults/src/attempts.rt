// Attempts at rows 9 and 10, with arrays of several lengths: most sheets need few places and few slots, and
// clearing the arrays would take longer than the resolution. Only a full array of outcomes stops an attempt.
ghost use Rattle.std.specs.Prelude.{◌≡◌, ◌≤◌, length};
ghost use Rattle.resolve_memory.specs.Slots.{Slots};
ghost use Rattle.resolve_laws.specs.Resolver as resolver;
ghost use Rattle.table_access.specs.Tables.{lines_in};
ghost use Rattle.row9_faults.specs.Attempts as attempts;

use resolve_faults::First;

// What an attempt ends at: the code and the declaration of the first fault, or a full array.
#[derive(Clone, Copy)]
pub enum Fault {
    Refused { code: u32, decl: usize },
    NoRoom,
}

// What an answer of the search says. That the fuel is spent is never answered after row 8.
fn told(answer: usize, decl: usize) -> Fault
    ensures { result ≡ attempts.outcome_of answer decl }
{
    if answer == resolve_types::NO_ROOM {
        return Fault::NoRoom;
    }
    if answer == resolve_types::NINE {
        return Fault::Refused { code: 9, decl };
    }
    Fault::Refused { code: 10, decl }
}

// With these arrays.
pub fn tried(
    t: &[u32],
    u: &[u16],
    keep: &[u8],
    out: &mut [u16],
    slots: &mut [u16],
) -> Result<(), Fault>
    requires asked { attempts.Asked (lines_in t.now) t.now u.now keep.now }
    requires slots { Slots (resolver.call_of (lines_in t.now) u.now) slots.old }
    ensures { attempts.Comes (lines_in t.now) (length out.old) result }
{
    match resolve_faults::first_fault(t, u, keep, out, slots) {
        Ok(()) => Ok(()),
        Err(First { answer, decl }) => Err(told(answer, decl)),
    }
}

// With so many outcomes, and so many cells of slots, of which none is used.
pub fn with<const OUT: usize, const SLOTS: usize>(
    t: &[u32],
    u: &[u16],
    keep: &[u8],
) -> Result<(), Fault>
    requires asked { attempts.Asked (lines_in t.now) t.now u.now keep.now }
    requires sized { (OUT ≤ 99328) × (SLOTS ≤ 22528) }
    ensures { attempts.Comes (lines_in t.now) OUT result }
{
    let mut out = [0u16; OUT];
    let mut slots = [0u16; SLOTS];
    tried(t, u, keep, &mut out, &mut slots)
}
