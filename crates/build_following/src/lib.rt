// Row 12 and both sheets of a sheet that ends in a pattern: behind the verdict sheet of its declarations stand its Q lines, and behind
// their left sheet the lines of the new pattern and of the names that it freed.
#![tactic(auto)]

ghost use Rattle.std.specs.Prelude.{◌≡◌, ◌++◌, ◌+◌, ◌≤◌, ◌<◌, length, take, drop};
ghost use Rattle.sheet.specs.Sheet.{encodes};
ghost use Rattle.walk_cells.specs.Cells.{lines_of};
ghost use Rattle.model.specs.Run.{run};
ghost use Rattle.meaning.specs.Program.{program};
ghost use Rattle.table_access.specs.Tables.{lines_in};
ghost use Rattle.pattern_put.specs.Puts.{Bytes};
ghost use Rattle.answer_built.specs.Built.{Gives};
ghost use Rattle.build_following.specs.Following.{Follows, behind};

use answer_built::Built;
use sheet_parts::LINE;
use walk_cells::CELLS;

// The left output is shorter than what follows the left sheet alone.
fn short(
    a: &[u8],
    z: &[u8],
    t: &[u32],
    p: &[u32],
    rounds: usize,
    u: &[u16],
    rank: &[u16],
    keep: &[u8],
    v: &mut [u8],
    l: &mut [u8],
) -> Built
    requires follows { Follows a.now z.now t.now p.now u.now rank.now keep.now v.old × (length l.old < behind p.now) }
    requires rounds_value { rounds ≡ (run 100 (program (lines_in t.now))).rounds }
    ensures { Gives (a.now ++ z.now) v.old l.old result v.new l.new }
{
    let extra = LINE * (p.len() / CELLS);
    if table_access::names(t) == 0 {
        return answer_built::refused(12, extra);
    }
    let front = build_outputs::outputs(a, t, rounds, u, rank, keep, v, &mut l[0..0]);
    answer_built::refused(12, front.place + extra)
}

// The Q lines, and the lines of the new pattern.
fn put_behind(z: &[u8], p: &[u32], verdict: usize, left: usize, v: &mut [u8], l: &mut [u8])
    requires { (verdict + length z.now ≤ length v.old) × (left + behind p.now ≤ length l.old) × Bytes p.now }
    ensures v_after { v.new ≡ take verdict v.old ++ (z.now ++ drop (verdict + length z.now) v.old) }
    ensures l_after { l.new ≡ take left l.old ++ (encodes 6 (lines_of p.now) ++ drop (left + behind p.now) l.old) }
{
    let end = verdict + z.len();
    sheet_copier::copy_lines(&mut v[verdict..end], z);
    let last = left + LINE * (p.len() / CELLS);
    pattern_put::put_lines(p, &mut l[left..last]);
}

// Row 12 and both sheets. The lines that follow the left declarations stand in the cells p.
pub fn followed(
    a: &[u8],
    z: &[u8],
    t: &[u32],
    p: &[u32],
    rounds: usize,
    u: &[u16],
    rank: &[u16],
    keep: &[u8],
    v: &mut [u8],
    l: &mut [u8],
) -> Built
    requires follows { Follows a.now z.now t.now p.now u.now rank.now keep.now v.old }
    requires rounds_value { rounds ≡ (run 100 (program (lines_in t.now))).rounds }
    ensures { Gives (a.now ++ z.now) v.old l.old result v.new l.new }
{
    let extra = LINE * (p.len() / CELLS);
    if l.len() < extra {
        return short(a, z, t, p, rounds, u, rank, keep, v, l);
    }
    let end = a.len();
    let room = l.len() - extra;
    let front = build_outputs::outputs(
        a,
        t,
        rounds,
        u,
        rank,
        keep,
        &mut v[0..end],
        &mut l[0..room],
    );
    if front.code != 0 {
        return answer_built::refused(12, front.place + extra);
    }
    put_behind(z, p, end, front.left, v, l);
    Built {
        code: 0,
        place: 0,
        rounds: front.rounds,
        verdict: end + z.len(),
        left: front.left + extra,
    }
}
