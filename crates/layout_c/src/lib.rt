// The build and the reach index for callers in C and Rust (bindings/): what `build::build` and `reach_index::reach_index` give, their numbers
// in an array that the caller lends.
#![tactic(auto)]

ghost use Rattle.std.specs.Prelude.{◌≡◌};
ghost use Rattle.layout_c.specs.Numbers.{Told, ToldSized};
ghost use Rattle.layout_c.specs.Index.{code_in, place_in, ToldIndex};

use answer::Refusal;

// Code, place and rounds.
#[unsafe(no_mangle)]
pub extern "C" fn layout_build(
    sheet: &[u8],
    verdict: &mut [u8],
    left: &mut [u8],
    answer: &mut [u64; 3],
)
    ensures { Told sheet.now verdict.old left.old answer.old answer.new verdict.new left.new }
{
    let r = build::build(sheet, verdict, left);
    answer[0] = r.code as u64;
    answer[1] = r.place as u64;
    answer[2] = r.rounds as u64;
}

// The same, and the lengths of the two sheets that were written.
#[unsafe(no_mangle)]
pub extern "C" fn layout_build_sized(
    sheet: &[u8],
    verdict: &mut [u8],
    left: &mut [u8],
    answer: &mut [u64; 5],
)
    ensures { ToldSized sheet.now verdict.old left.old answer.old answer.new verdict.new left.new }
{
    let b = build::build(sheet, verdict, left);
    answer[0] = b.code as u64;
    answer[1] = b.place as u64;
    answer[2] = b.rounds as u64;
    answer[3] = b.verdict as u64;
    answer[4] = b.left as u64;
}

// The code of a refusal, 0 of an acceptance.
fn code_of(r: Refusal) -> u64
    ensures { result ≡ code_in r }
{
    match r {
        Refusal::Accepted => 0,
        Refusal::Refused { code, place: _ } => code as u64,
    }
}

// Its place, 0 of an acceptance.
fn place_of(r: Refusal) -> u64
    ensures { result ≡ place_in r }
{
    match r {
        Refusal::Accepted => 0,
        Refusal::Refused { code: _, place } => place as u64,
    }
}

// Code and place, and on code 0 the sets.
#[unsafe(no_mangle)]
pub extern "C" fn layout_reach_index(sheet: &[u8], sets: &mut [u64; 192], answer: &mut [u64; 2])
    ensures { ToldIndex sheet.now sets.old answer.old answer.new sets.new }
{
    let r = reach_index::reach_index(sheet, sets);
    answer[0] = code_of(r);
    answer[1] = place_of(r);
}
