// The layout build: a sheet and two outputs go in; code, place and rounds come out, and on acceptance both sheets stand in the outputs.
#![tactic(auto)]

ghost use Rattle.std.specs.Prelude.{◌≡◌, false, ◌++◌, ◌+◌, ◌*◌, ◌≤◌, length};
ghost use Rattle.sheet.specs.Format.{base};
ghost use Rattle.sheet.specs.Sheet.{count, row1};
ghost use Rattle.model.specs.Run.{run};
ghost use Rattle.meaning.specs.Program.{program};
ghost use Rattle.table_access.specs.Tables.{lines_in};
ghost use Rattle.answer_built.specs.Built.{Gives};
ghost use Rattle.input_rows.specs.Judging.{Room, Accepts};
ghost use Rattle.build.specs.Build.{Taken};

use answer::Refusal;
use answer_built::Built;
use input_rows::Decided;
use sheet_parts::LINE;
use walk_cells::CELLS;

// Bytes of 58, 126, 254, 386 and 1,024 lines, whose tables fit 480, 1,024, 2,048, 3,104 and 8,208 cells: eight for each line, and 16 for
// the header and the end. Cells that a sheet does not need are not cleared.
const TINY: usize = 1856;

const SMALL: usize = 4032;

const MIDDLE: usize = 8128;

const LARGE: usize = 12352;

const HALF: usize = 32768;

// Rows 11 and 12 and the sheets, where no row of the input applies: a are the declarations, z the Q lines, if there are any, and q the
// cells of these.
fn written(
    a: &[u8],
    z: &[u8],
    t: &[u32],
    q: &[u32],
    rounds: usize,
    u: &[u16],
    rank: &[u16],
    keep: &[u8],
    v: &mut [u8],
    l: &mut [u8],
) -> Built
    requires taken { Taken a.now z.now t.now q.now u.now rank.now keep.now }
    requires rounds_value { rounds ≡ (run 100 (program (lines_in t.now))).rounds }
    ensures { Gives (a.now ++ z.now) v.old l.old result v.new l.new }
{
    if q.len() > 0 {
        return build_patterns::patterned(a, z, t, q, rounds, u, rank, keep, v, l);
    }
    if v.len() < a.len() {
        return answer_built::refused(11, a.len());
    }
    build_outputs::outputs(a, t, rounds, u, rank, keep, v, l)
}

// The declarations and the Q lines of a sheet to which no row of the input applies, and as much of the memory as they need.
fn accepted(
    s: &[u8],
    d: Decided,
    t: &[u32],
    u: &[u16],
    rank: &[u16],
    keep: &[u8],
    v: &mut [u8],
    l: &mut [u8],
) -> Built
    requires { Accepts s.now t.now keep.now u.now rank.now d × Room keep.now u.now rank.now }
    ensures { Gives s.now v.old l.old result v.new l.new }
{
    let n = d.decls;
    let cells = d.cells;
    let at = d.lines * LINE;
    let room = 8 * d.lines + 16;
    let z = &s[at..s.len()];
    let last = room + z.len() / LINE * CELLS;
    written(
        &s[0..at],
        z,
        &t[0..cells],
        &t[room..last],
        d.rounds,
        &u[0..2 * n],
        &rank[0..n],
        keep,
        v,
        l,
    )
}

// The rows of the input, with memory for the table; and the build of a sheet that passes them.
fn checked(s: &[u8], t: &mut [u32], v: &mut [u8], l: &mut [u8]) -> Built
    requires { (row1 base s.now ≡ false) × (8 * count 6 s.now + 16 ≤ length t.old) }
    ensures { Gives s.now v.old l.old result v.new l.new }
{
    let mut keep = [0u8; 512];
    let mut u = [0u16; 192];
    let mut rank = [0u16; 96];
    let d = input_rows::decide(s, t, &mut keep, &mut u, &mut rank);
    let refusal = d.refusal;
    match refusal {
        Refusal::Accepted => accepted(s, d, t, &u, &rank, &keep, v, l),
        Refusal::Refused { code, place } => answer_built::refused(code, place),
    }
}

// Builds a sheet. A refusal changes no byte of the outputs; else each of them begins with its sheet, and what stands behind it stays.
pub fn build(s: &[u8], v: &mut [u8], l: &mut [u8]) -> Built
    ensures { Gives s.now v.old l.old result v.new l.new }
{
    if walk_cells::format::row1(s) {
        return answer_built::refused(1, 0);
    }
    if s.len() <= TINY {
        let mut t = [0u32; 480];
        return checked(s, &mut t, v, l);
    }
    if s.len() <= SMALL {
        let mut t = [0u32; 1024];
        return checked(s, &mut t, v, l);
    }
    if s.len() <= MIDDLE {
        let mut t = [0u32; 2048];
        return checked(s, &mut t, v, l);
    }
    if s.len() <= LARGE {
        let mut t = [0u32; 3104];
        return checked(s, &mut t, v, l);
    }
    if s.len() <= HALF {
        let mut t = [0u32; 8208];
        return checked(s, &mut t, v, l);
    }
    let mut t = [0u32; 16400];
    checked(s, &mut t, v, l)
}
