// The normal forms of all unfolded declarations, rank after rank.
#![tactic(auto)]

mod rank_bounds;

ghost use Rattle.std.specs.Prelude.{◌≡◌, ℕ, ◌*◌, ◌≤◌, ◌<◌, length, get_or};
ghost use Rattle.sheet.specs.Format.{base};
ghost use Rattle.table_declared.specs.Passed.{Bounded};
ghost use Rattle.table_access.specs.Tables.{decls_of, lines_in};
ghost use Rattle.form_normal.specs.Ranks.{Ranked, Formed};
ghost use Rattle.form_tables.specs.Bounds.{Starts, Ends};

// Zeros in the first k cells.
fn clear(f: &mut [u64], k: usize)
    requires { k ≤ length f.old }
    ensures { (i : ℕ) → i < k → get_or f.new i 0 ≡ 0 }
{
    f[..k].fill(0);
}

// The normal forms of all ranks, whose declarations stand from `start` to before `end`.
fn ranked(
    t: &[u32],
    u: &[u16],
    rank: &[u16],
    start: &[u16],
    end: &[u16],
    f: &mut [u64],
    scratch: &mut [u64],
) -> usize
    requires ranked { Ranked (lines_in t.now) t.now u.now rank.now × (2 * decls_of (lines_in t.now) ≤ length f.old) }
    requires starts { Starts rank.now (length start.now) start.now × Ends rank.now (length end.now) end.now }
    requires t_in_bounds { (decls_of (lines_in t.now) ≤ length start.now) × (decls_of (lines_in t.now) ≤ length end.now) }
    ensures { Formed (lines_in t.now) u.now rank.now (length scratch.old) f.old f.new result }
{
    let n = table_access::decls(t);
    clear(f, 2 * n);
    let mut p = 2 * n;
    for r in 0..n {
        let from = start[r] as usize;
        let to = end[r] as usize;
        p = form_ranks::forms_of_rank(t, u, rank, f, scratch, r, from, to, p);
        if p > f.len() {
            return p;
        }
    }
    p
}

// In memory that is lent for the bounds of ranks.
fn bounded(
    t: &[u32],
    u: &[u16],
    rank: &[u16],
    start: &mut [u16],
    end: &mut [u16],
    f: &mut [u64],
    scratch: &mut [u64],
) -> usize
    requires ranked { Ranked (lines_in t.now) t.now u.now rank.now × (2 * decls_of (lines_in t.now) ≤ length f.old) }
    requires t_in_bounds { (decls_of (lines_in t.now) ≤ length start.old) × (decls_of (lines_in t.now) ≤ length end.old) }
    requires by_index { (r : ℕ) → get_or end.old r 0 ≡ 0 }
    ensures { Formed (lines_in t.now) u.now rank.now (length scratch.old) f.old f.new result }
{
    rank_bounds::starts(rank, start);
    rank_bounds::ends(rank, end);
    ranked(t, u, rank, start, end, f, scratch)
}

// The normal forms of all unfolded declarations, callees first, and the place after them; a place past the end where the list
// or the scratch is too short.
pub fn normal_forms(t: &[u32], u: &[u16], rank: &[u16], f: &mut [u64], scratch: &mut [u64]) -> usize
    requires { Ranked (lines_in t.now) t.now u.now rank.now × (2 * decls_of (lines_in t.now) ≤ length f.old) × Bounded base (lines_in t.now) }
    ensures { Formed (lines_in t.now) u.now rank.now (length scratch.old) f.old f.new result }
{
    let mut start = [0u16; 96];
    let mut end = [0u16; 96];
    bounded(t, u, rank, &mut start, &mut end, f, scratch)
}
