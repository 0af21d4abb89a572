// The normal forms of the declarations of one rank.
#![tactic(auto)]

mod own_forms;

ghost use Rattle.std.specs.Prelude.{◌≡◌, ◌+◌, ◌≤◌, ◌<◌, length, get_or};
ghost use Rattle.table_access.specs.Tables.{decls_of, lines_in};
ghost use Rattle.form_normal.specs.Tables.{Table};
ghost use Rattle.form_normal.specs.Ranks.{Ranked, Done, Reached};
ghost use Rattle.form_ranks.specs.Next.{Next, Within};

// The normal form of declaration d, whose rank is r, if it is unfolded.
fn form_at(
    t: &[u32],
    u: &[u16],
    rank: &[u16],
    f: &mut [u64],
    scratch: &mut [u64],
    r: usize,
    d: usize,
    pos: usize,
) -> usize
    requires ranked { Ranked (lines_in t.now) t.now u.now rank.now × (d < decls_of (lines_in t.now)) × Table (lines_in t.now) u.now f.old pos (Done (lines_in t.now) u.now rank.now r d) }
    requires of_rank { get_or rank.now d 0 ≡ r }
    ensures { Reached (lines_in t.now) u.now rank.now r (d + 1) (length scratch.old) f.old f.new result }
{
    let x = u[2 * d];
    if x == 0 {
        return pos;
    }
    if x > 2 {
        return pos;
    }
    own_forms::normal_form(t, u, f, d, scratch, pos)
}

// The first of the declarations from `from` on, before n, that has rank r, or n.
fn next_of_rank(rank: &[u16], r: usize, from: usize, n: usize) -> usize
    requires { (from ≤ n) × (n ≤ length rank.now) }
    ensures next { Next rank.now r from n result }
    ensures found { result < n → get_or rank.now result 0 ≡ r }
{
    for d in from..n {
        if rank[d] as usize == r {
            return d;
        }
    }
    n
}

// The normal forms of rank r, whose declarations stand from place `from` to before `end`, from place pos on.
pub fn forms_of_rank(
    t: &[u32],
    u: &[u16],
    rank: &[u16],
    f: &mut [u64],
    scratch: &mut [u64],
    r: usize,
    from: usize,
    end: usize,
    pos: usize,
) -> usize
    requires ranked { Ranked (lines_in t.now) t.now u.now rank.now × Table (lines_in t.now) u.now f.old pos (Done (lines_in t.now) u.now rank.now r 0) }
    requires within { Within rank.now (decls_of (lines_in t.now)) r from end }
    ensures { Reached (lines_in t.now) u.now rank.now r (decls_of (lines_in t.now)) (length scratch.old) f.old f.new result }
{
    let mut p = pos;
    if from >= end {
        return p;
    }
    let mut d = next_of_rank(rank, r, from, end);
    while d < end {
        p = form_at(t, u, rank, f, scratch, r, d, p);
        if p > f.len() {
            return p;
        }
        d = next_of_rank(rank, r, d + 1, end);
    }
    p
}
