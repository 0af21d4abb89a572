// Row 12 and both sheets: in arrays that serve nearly every sheet, and in larger ones only where these are too short.
#![tactic(auto)]

ghost use Rattle.std.specs.Prelude.{◌⊎◌, ◌≡◌, ◌≤◌, ◌<◌};
ghost use Rattle.model.specs.Run.{run};
ghost use Rattle.meaning.specs.Program.{program};
ghost use Rattle.answer_built.specs.Built.{GivesFront, Tries};
ghost use Rattle.build_sheets.specs.Sheets.{Lent};
ghost use Rattle.table_access.specs.Tables.{decls_of, lines_in};
ghost use Rattle.build_outputs.specs.Outputs.{Short};

use answer_built::Built;

// The forms of so many declarations can fit the smallest arrays.
const FEW: usize = 64;

// Both sheets in arrays of so many words.
fn within<const FORMS: usize, const SCRATCH: usize>(
    s: &[u8],
    t: &[u32],
    rounds: usize,
    u: &[u16],
    rank: &[u16],
    keep: &[u8],
    v: &mut [u8],
    l: &mut [u8],
) -> Option<Built>
    requires lent { Lent s.now t.now u.now rank.now keep.now v.old 98496 1024 1024 }
    requires rounds_value { rounds ≡ (run 100 (program (lines_in t.now))).rounds }
    requires sizes { (192 ≤ FORMS) × (FORMS ≤ 98496) × (SCRATCH ≤ 1024) }
    ensures { Tries (Short (decls_of (lines_in t.now)) FORMS SCRATCH) s.now v.old l.old result v.new l.new }
{
    let mut forms = [0u64; FORMS];
    let mut scratch = [0u64; SCRATCH];
    let mut stack = [0u32; SCRATCH];
    build_sheets::sheets(
        s,
        t,
        rounds,
        u,
        rank,
        keep,
        &mut forms,
        &mut scratch,
        &mut stack,
        v,
        l,
    )
}

// Behind arrays that were too short.
fn larger(
    s: &[u8],
    t: &[u32],
    rounds: usize,
    u: &[u16],
    rank: &[u16],
    keep: &[u8],
    v: &mut [u8],
    l: &mut [u8],
) -> Built
    requires lent { Lent s.now t.now u.now rank.now keep.now v.old 98496 1024 1024 }
    requires rounds_value { rounds ≡ (run 100 (program (lines_in t.now))).rounds }
    ensures { GivesFront s.now v.old l.old result v.new l.new }
{
    let second = within::<2048, 1024>(s, t, rounds, u, rank, keep, v, l);
    if let Some(built) = second {
        return built;
    }
    let third = within::<98496, 1024>(s, t, rounds, u, rank, keep, v, l);
    third.unwrap()
}

// Where there are many declarations, whose forms do not fit the smallest arrays.
fn many(
    s: &[u8],
    t: &[u32],
    rounds: usize,
    u: &[u16],
    rank: &[u16],
    keep: &[u8],
    v: &mut [u8],
    l: &mut [u8],
) -> Built
    requires lent { Lent s.now t.now u.now rank.now keep.now v.old 98496 1024 1024 }
    requires rounds_value { rounds ≡ (run 100 (program (lines_in t.now))).rounds }
    ensures { GivesFront s.now v.old l.old result v.new l.new }
{
    let first = within::<512, 64>(s, t, rounds, u, rank, keep, v, l);
    if let Some(built) = first {
        return built;
    }
    larger(s, t, rounds, u, rank, keep, v, l)
}

// Every array but the smallest.
fn behind(
    s: &[u8],
    t: &[u32],
    rounds: usize,
    u: &[u16],
    rank: &[u16],
    keep: &[u8],
    v: &mut [u8],
    l: &mut [u8],
) -> Built
    requires lent { Lent s.now t.now u.now rank.now keep.now v.old 98496 1024 1024 }
    requires rounds_value { rounds ≡ (run 100 (program (lines_in t.now))).rounds }
    ensures { GivesFront s.now v.old l.old result v.new l.new }
{
    if rank.len() > FEW {
        return many(s, t, rounds, u, rank, keep, v, l);
    }
    larger(s, t, rounds, u, rank, keep, v, l)
}

// The smallest arrays in attempt 0, the others in attempt 1. It calls itself for those: the compiler keeps large arrays out of the
// frame of a function that does, and so out of the frame that every sheet pays for.
fn attempt(
    s: &[u8],
    t: &[u32],
    rounds: usize,
    u: &[u16],
    rank: &[u16],
    keep: &[u8],
    number: usize,
    v: &mut [u8],
    l: &mut [u8],
) -> Built
    requires lent { Lent s.now t.now u.now rank.now keep.now v.old 98496 1024 1024 }
    requires rounds_value { rounds ≡ (run 100 (program (lines_in t.now))).rounds }
    ensures { GivesFront s.now v.old l.old result v.new l.new }
{
    if number > 0 {
        return behind(s, t, rounds, u, rank, keep, v, l);
    }
    let mut forms = [0u64; 224];
    let mut scratch = [0u64; 64];
    let mut stack = [0u32; 64];
    let first = build_sheets::sheets(
        s,
        t,
        rounds,
        u,
        rank,
        keep,
        &mut forms,
        &mut scratch,
        &mut stack,
        v,
        l,
    );
    if let Some(built) = first {
        return built;
    }
    attempt(s, t, rounds, u, rank, keep, 1, v, l)
}

// Row 12 and both sheets of a sheet to which no earlier row applies.
pub fn outputs(
    s: &[u8],
    t: &[u32],
    rounds: usize,
    u: &[u16],
    rank: &[u16],
    keep: &[u8],
    v: &mut [u8],
    l: &mut [u8],
) -> Built
    requires lent { Lent s.now t.now u.now rank.now keep.now v.old 98496 1024 1024 }
    requires rounds_value { rounds ≡ (run 100 (program (lines_in t.now))).rounds }
    ensures { GivesFront s.now v.old l.old result v.new l.new }
{
    if rank.len() > FEW {
        return attempt(s, t, rounds, u, rank, keep, 1, v, l);
    }
    attempt(s, t, rounds, u, rank, keep, 0, v, l)
}
