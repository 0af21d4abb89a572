// Row 8: whether an unfolded name returns to itself, by what is reached through the bodies of unfolded declarations.
#![tactic(auto)]

mod ranks;

ghost use Rattle.std.specs.Prelude.{◌≡◌, ◌+◌, ◌*◌, ◌<◌, length};
ghost use Rattle.model.specs.Run as run;
ghost use Rattle.meaning.specs.Program as program;
ghost use Rattle.meaning.specs.Rows as rows;
ghost use Rattle.table_access.specs.Tables as tables;
ghost use Rattle.mention_types.specs.Mentions.{Mentioned};
ghost use Rattle.set_search.specs.Loops.{First};
ghost use Rattle.keep_layouts.specs.States.{Settled};
ghost use Rattle.row8_returning.specs.Returning.{through, Through, Room};

// The body of an unfolded declaration d, else the number of types.
fn body(u: &[u16], types: u16, d: usize) -> u16
    requires { 2 * d + 1 < length u.now }
    ensures { result ≡ through types u.now d }
{
    let state = u[2 * d];
    if state == 1 {
        return u[2 * d + 1];
    }
    if state == 2 {
        return u[2 * d + 1];
    }
    types
}

// The bodies that row 8 goes on through.
fn put_bodies(t: &[u32], u: &[u16], bodies: &mut [u16])
    requires tabled { tables.Tabled t.now }
    requires u_len { length u.now ≡ 2 * tables.decls_of (tables.lines_in t.now) }
    requires bodies_len { length bodies.old ≡ tables.decls_of (tables.lines_in t.now) }
    ensures { Through (tables.lines_in t.now) u.now (tables.decls_of (tables.lines_in t.now)) bodies.new }
{
    let types = table_access::types(t) as u16;
    for d in 0..bodies.len() {
        bodies[d] = body(u, types, d);
    }
}

// The first declaration that returns to itself, or the number of declarations; and the ranks of all before it.
pub fn returning(
    t: &[u32],
    u: &[u16],
    sets: &[u64],
    words: usize,
    bodies: &mut [u16],
    steps: &mut [u64],
    rank: &mut [u16],
) -> usize
    requires tabled { tables.Tabled t.now }
    requires settled { Settled (tables.lines_in t.now) u.now }
    requires mentioned { Mentioned (tables.lines_in t.now) words sets.now (rows.count_of program.type_line (tables.lines_in t.now)) }
    requires room { Room (tables.decls_of (tables.lines_in t.now)) words bodies.old steps.old rank.old }
    ensures { First (run.unfold_next (program.program (tables.lines_in t.now)) (run.layouts_of (program.program (tables.lines_in t.now)))) (tables.decls_of (tables.lines_in t.now)) result rank.old rank.new }
{
    put_bodies(t, u, bodies);
    let types = table_access::types(t);
    mention_edges::edges(sets, words, types, bodies, steps);
    let n = table_access::decls(t);
    ranks::ranks(steps, words, n, rank)
}
