// Rows 9 and 10: the first declaration that meets a fault, and its code.
#![tactic(auto)]

mod attempts;

ghost use Rattle.std.specs.Prelude.{◌≡◌, [], ◌∷◌, ◌≤◌};
ghost use Rattle.answer.specs.Answer as answer;
ghost use Rattle.sheet.specs.Format.{base};
ghost use Rattle.table_access.specs.Tables as tables;
ghost use Rattle.rows_heads.specs.HeadRows as head_rows;
ghost use Rattle.row9_faults.specs.Attempts as attempts;

use answer::Refusal;
use attempts::Fault;

// Few slots serve where so few declarations are unfolded.
const FEW: usize = 4;

// How many declarations are unfolded. With few slots each one more can multiply the work by the calls in its
// body. Any answer leads to the same refusal: it only says which arrays are tried first.
fn unfolded(u: &[u16]) -> usize {
    u.iter()
        .step_by(2)
        .filter(|state| **state == 1 || **state == 2)
        .count()
}

// Where more declarations are unfolded, and few slots would be slow: 768 outcomes and 1,024 slots, or 1,000 and 2,048
// where many are.
fn many(t: &[u32], u: &[u16], keep: &[u8], n: usize) -> Result<(), Fault>
    requires { attempts.Asked (tables.lines_in t.now) t.now u.now keep.now }
    ensures { attempts.Comes (tables.lines_in t.now) 768 result }
{
    if n <= 16 {
        return attempts::with::<768, 11264>(t, u, keep);
    }
    attempts::with::<1000, 22528>(t, u, keep)
}

// 97 * 1,024 outcomes, of which any sheet has enough, and 2,048 slots.
fn large(t: &[u32], u: &[u16], keep: &[u8]) -> Result<(), Fault>
    requires { attempts.Asked (tables.lines_in t.now) t.now u.now keep.now }
    ensures { attempts.Comes (tables.lines_in t.now) 99328 result }
{
    attempts::with::<99328, 22528>(t, u, keep)
}

// Comes back with the large arrays where those of the first attempt were full.
fn completed(t: &[u32], u: &[u16], keep: &[u8], r: Result<(), Fault>) -> Result<(), Fault>
    requires asked { attempts.Asked (tables.lines_in t.now) t.now u.now keep.now }
    requires comes { attempts.Comes (tables.lines_in t.now) 768 r }
    ensures { attempts.Comes (tables.lines_in t.now) 99328 result }
{
    match r {
        Err(Fault::NoRoom) => large(t, u, keep),
        found => found,
    }
}

// Every array but the smallest, where n declarations are unfolded.
fn behind(t: &[u32], u: &[u16], keep: &[u8], n: usize) -> Result<(), Fault>
    requires { attempts.Asked (tables.lines_in t.now) t.now u.now keep.now }
    ensures { attempts.Comes (tables.lines_in t.now) 99328 result }
{
    if n <= FEW {
        return large(t, u, keep);
    }
    let first = many(t, u, keep, n);
    completed(t, u, keep, first)
}

// 512 outcomes and 64 slots in attempt 0, the others in attempt 1. It calls itself for those: the compiler keeps large arrays out of
// the frame of a function that does, and so out of the frame that every sheet pays for.
fn attempt(t: &[u32], u: &[u16], keep: &[u8], n: usize, number: usize) -> Result<(), Fault>
    requires { attempts.Asked (tables.lines_in t.now) t.now u.now keep.now }
    ensures { attempts.Comes (tables.lines_in t.now) 99328 result }
{
    if number > 0 {
        return behind(t, u, keep, n);
    }
    let mut out = [0u16; 512];
    let mut slots = [0u16; 704];
    match attempts::tried(t, u, keep, &mut out, &mut slots) {
        Err(Fault::NoRoom) => attempt(t, u, keep, n, 1),
        found => found,
    }
}

// The place is the declaration's line. There is room by now.
fn refused(t: &[u32], r: Result<(), Fault>) -> Refusal
    requires tabled_in { tables.TabledIn base t.now }
    requires comes { attempts.Comes (tables.lines_in t.now) 99328 r }
    ensures { result ≡ answer.refusal (head_rows.faults_row base (tables.lines_in t.now) ∷ []) }
{
    match r {
        Err(Fault::Refused { code, decl }) => Refusal::Refused {
            code,
            place: table_access::line_of(t, decl),
        },
        Ok(()) => Refusal::Accepted,
        Err(Fault::NoRoom) => Refusal::Accepted,
    }
}

// Rows 9 and 10.
pub fn rows9_10(t: &[u32], u: &[u16], keep: &[u8]) -> Refusal
    requires { attempts.Asked (tables.lines_in t.now) t.now u.now keep.now }
    ensures { result ≡ answer.refusal (head_rows.faults_row base (tables.lines_in t.now) ∷ []) }
{
    let n = unfolded(u);
    let number = if n <= FEW { 0 } else { 1 };
    refused(t, attempt(t, u, keep, n, number))
}
