// Row 4, and what the lines of a sheet declare. The counts of the runs at its front are known, so that only the lines after
// them are looked at one by one. A first walk only counts, and hardly jumps; where some line may be past a limit a second one finds it.
#![tactic(auto)]

ghost use Rattle.std.specs.Prelude.{◌≡◌, true, ◌+◌, ◌≤◌, ◌<◌, length};
ghost use Rattle.walk_cells.specs.Cells.{lines_of};
ghost use Rattle.sheet.specs.Format.{base};
ghost use Rattle.sheet.specs.Sheet as sheet;
ghost use Rattle.rows_runs.specs.RunsLaws.{Spans};
ghost use Rattle.meaning.specs.Rows as rows;
ghost use Rattle.row4_limits.specs.Limits as limits;
ghost use Rattle.row4_counting.specs.Walk as walk;
ghost use Rattle.row4_counting.specs.WalkLaws.{Begins};
ghost use Rattle.row4_counting.specs.Quickly as quickly;

use row4_limits::{ARGS, CTORS, Counts, FIELDS, NAMES, TYPES, Tally};
use rows_runs::Runs;
use walk_cells::CELLS;

// Sums of letters of no more cells than this fit.
const LONG: usize = 4294967296;

// The first line past a limit, or the count of lines; and then what the lines declare.
#[derive(Clone, Copy)]
pub struct Walked {
    pub past: usize,
    pub counts: Counts,
}

fn no_runs() -> Runs
    ensures { result ≡ walk.no_runs }
{
    Runs {
        names: 0,
        args: 0,
        types: 0,
    }
}

// The runs where they are within their limits; else none, and the walk finds the line past its limit.
#[tactic(auto, unfolding(crate::specs::Walk::kept))]
fn kept(r: Runs) -> Runs
    requires { (r.names ≤ r.args) × (r.args ≤ r.types) }
    ensures { result ≡ walk.kept base r }
{
    if r.names > NAMES {
        return no_runs();
    }
    if r.args - r.names > ARGS {
        return no_runs();
    }
    if r.types - r.args > TYPES {
        return no_runs();
    }
    r
}

// After the runs.
fn headed(r: Runs) -> Tally
    requires { (r.names ≤ r.args) × (r.args ≤ r.types) }
    ensures { result ≡ walk.headed r }
{
    Tally {
        names: r.names,
        args: r.args - r.names,
        types: r.types - r.args,
        decls: 0,
        params: 0,
        ctors: 0,
        fields: 0,
    }
}

fn declared(t: Tally) -> Counts
    ensures { result ≡ walk.declared t }
{
    Counts {
        names: t.names,
        args: t.args,
        types: t.types,
        decls: t.decls,
        ctors: t.ctors,
        fields: t.fields,
    }
}

// The counts after some lines; the sum of the letters of those that count as C or F lines, which tells whether they are; and whether
// the others are known and within their limits.
#[derive(Clone, Copy)]
pub struct Quick {
    pub known: bool,
    pub letters: usize,
    pub tally: Tally,
}

// After a D, I or P line.
fn exact(q: Quick, letter: u32) -> Quick
    requires { quickly.sum q.tally < 1152921504606846976 }
    ensures { result ≡ quickly.exact q letter }
{
    let before = q.tally;
    let known = q.known & !row4_limits::past(before, letter);
    let tally = row4_limits::counted(before, letter);
    Quick {
        known,
        letters: q.letters,
        tally,
    }
}

// After a line up to F, which counts as a C line below D and else as an F line: both counts are made, since which of the two comes next
// cannot be foreseen. The sum of letters is at most that of so many C and F lines, and equal only where all are such.
fn member(q: Quick, letter: u32) -> Quick
    requires { (quickly.sum q.tally < 1152921504606846976) × (q.letters < 1152921504606846976) }
    ensures { result ≡ quickly.member q letter }
{
    let mut tally = q.tally;
    tally.ctors += usize::from(letter < 68);
    tally.fields += usize::from(letter > 67);
    Quick {
        known: q.known,
        letters: q.letters + letter as usize,
        tally,
    }
}

// After a line of this letter.
#[tactic(auto, unfolding(crate::specs::Quickly::stepped))]
fn stepped(q: Quick, letter: u32) -> Quick
    requires { (quickly.sum q.tally < 1152921504606846976) × (q.letters < 1152921504606846976) }
    ensures { result ≡ quickly.stepped q letter }
{
    if letter > 70 {
        if letter == 86 {
            return q;
        }
        if letter == 80 {
            return exact(q, 80);
        }
        if letter == 73 {
            return exact(q, 73);
        }
        let tally = q.tally;
        return Quick {
            known: false,
            letters: q.letters,
            tally,
        };
    }
    if letter == 68 {
        return exact(q, 68);
    }
    member(q, letter)
}

// After the last line.
fn quickly(t: &[u32], front: Runs) -> Quick
    requires { Begins base (lines_of t.now) front }
    ensures right { quickly.Right (lines_of t.now) (length (lines_of t.now)) result }
    ensures t_len_bound { result.known ≡ true → length t.now ≤ 4294967296 }
{
    let n = t.len() / CELLS;
    let tally = headed(front);
    if t.len() > LONG {
        return Quick {
            known: false,
            letters: 0,
            tally,
        };
    }
    let mut q = Quick {
        known: true,
        letters: 0,
        tally,
    };
    for i in front.types..n {
        q = stepped(q, walk_cells::letter(t, i));
    }
    q
}

// All lines are known, and within their limits.
fn whole(q: Quick) -> bool
    requires { q.known ≡ true → quickly.sum q.tally ≤ 4294967296 }
    ensures { result ≡ true → quickly.Whole q }
{
    let ctors = q.tally.ctors;
    let fields = q.tally.fields;
    if !q.known {
        return false;
    }
    if q.letters != 67 * ctors + 70 * fields {
        return false;
    }
    if ctors > CTORS {
        return false;
    }
    fields <= FIELDS
}

// The walk that finds the line.
fn searched(t: &[u32], front: Runs) -> Walked
    requires { Begins base (lines_of t.now) front }
    ensures past_value { result.past ≡ sheet.first (rows.row4 base (lines_of t.now)) (length (lines_of t.now)) }
    ensures counts_value { result.past ≡ length (lines_of t.now) → result.counts ≡ limits.counts_of (lines_of t.now) }
{
    let n = t.len() / CELLS;
    let mut tally = headed(front);
    for i in front.types..n {
        let letter = walk_cells::letter(t, i);
        if row4_limits::past(tally, letter) {
            let counts = declared(tally);
            return Walked { past: i, counts };
        }
        tally = row4_limits::counted(tally, letter);
    }
    let counts = declared(tally);
    Walked { past: n, counts }
}

// Row 4 and the counts, by the runs at the front.
pub fn walk(t: &[u32], r: Runs) -> Walked
    requires { Spans (lines_of t.now) r }
    ensures past_value { result.past ≡ sheet.first (rows.row4 base (lines_of t.now)) (length (lines_of t.now)) }
    ensures counts_value { result.past ≡ length (lines_of t.now) → result.counts ≡ limits.counts_of (lines_of t.now) }
{
    let front = kept(r);
    let q = quickly(t, front);
    if whole(q) {
        let tally = q.tally;
        let past = t.len() / CELLS;
        let counts = declared(tally);
        return Walked { past, counts };
    }
    searched(t, front)
}
