// Row 11, and then row 12 and both sheets, of a sheet that ends in a pattern and to which no row of the input applies.
#![tactic(auto)]

ghost use Rattle.std.specs.Prelude.{◌≡◌, ◌++◌, ◌*◌, length};
ghost use Rattle.walk_cells.specs.Cells.{lines_of};
ghost use Rattle.model.specs.Run.{run};
ghost use Rattle.meaning.specs.Program.{name_line, program};
ghost use Rattle.meaning.specs.Rows.{count_of};
ghost use Rattle.table_access.specs.Tables.{lines_in};
ghost use Rattle.pattern_ctors.specs.Sites.{Sited};
ghost use Rattle.answer_built.specs.Built.{Gives};
ghost use Rattle.build_patterns.specs.Patterned.{Patterned, Unflagged, Flagged, Counted, Marked};

use answer_built::Built;
use walk_cells::CELLS;

// What the marks and flags of the Q lines make of the pattern, and both sheets.
fn emitted(
    a: &[u8],
    z: &[u8],
    t: &[u32],
    q: &[u32],
    marks: &[u8],
    flags: &[u8],
    rounds: usize,
    u: &[u16],
    rank: &[u16],
    keep: &[u8],
    v: &mut [u8],
    l: &mut [u8],
) -> Built
    requires counted { Counted a.now z.now t.now q.now u.now rank.now keep.now v.old × Marked (lines_in t.now) q.now marks.now flags.now }
    requires rounds_value { rounds ≡ (run 100 (program (lines_in t.now))).rounds }
    ensures { Gives (a.now ++ z.now) v.old l.old result v.new l.new }
{
    let mut p = [0u32; 1536];
    let n = pattern_emit::emit(q, marks, flags, &mut p);
    build_following::followed(a, z, t, &p[0..CELLS * n], rounds, u, rank, keep, v, l)
}

// The flags of the Q lines, by the owner and the place of each in own and place.
fn flags_by(
    t: &[u32],
    keep: &[u8],
    u: &[u16],
    m: &[u16],
    q: &[u32],
    own: &mut [u16],
    place: &mut [u16],
    flags: &mut [u8],
)
    requires unflagged { Unflagged t.now q.now m.now keep.now flags.old }
    requires own_len { (length own.old ≡ length (lines_of q.now)) × (length place.old ≡ length (lines_of q.now)) }
    ensures { Flagged (lines_in t.now) keep.now u.now m.now (lines_of q.now) flags.new }
{
    pattern_owners::owners(q, own);
    pattern_owners::places(q, place);
    pattern_flags::flags(t, keep, u, m, q, own, place, flags);
}

// The flags of at most 256 Q lines.
fn flags_of(t: &[u32], keep: &[u8], u: &[u16], m: &[u16], q: &[u32], flags: &mut [u8])
    requires { Unflagged t.now q.now m.now keep.now flags.old }
    ensures { Flagged (lines_in t.now) keep.now u.now m.now (lines_of q.now) flags.new }
{
    let n = q.len() / CELLS;
    let mut own = [0u16; 256];
    let mut place = [0u16; 256];
    flags_by(t, keep, u, m, q, &mut own[0..n], &mut place[0..n], flags);
}

// The marks and flags of the Q lines, by where constructors are declared.
fn marked(
    a: &[u8],
    z: &[u8],
    t: &[u32],
    q: &[u32],
    m: &[u16],
    rounds: usize,
    u: &[u16],
    rank: &[u16],
    keep: &[u8],
    v: &mut [u8],
    l: &mut [u8],
) -> Built
    requires counted { Counted a.now z.now t.now q.now u.now rank.now keep.now v.old × Sited (lines_in t.now) m.now }
    requires rounds_value { rounds ≡ (run 100 (program (lines_in t.now))).rounds }
    ensures { Gives (a.now ++ z.now) v.old l.old result v.new l.new }
{
    let mut marks = [0u8; 256];
    let mut flags = [0u8; 256];
    pattern_marks::marks(t, u, m, q, &mut marks);
    flags_of(t, keep, u, m, q, &mut flags);
    emitted(a, z, t, q, &marks, &flags, rounds, u, rank, keep, v, l)
}

// Row 11.
fn counted(
    a: &[u8],
    z: &[u8],
    t: &[u32],
    q: &[u32],
    m: &[u16],
    rounds: usize,
    u: &[u16],
    rank: &[u16],
    keep: &[u8],
    v: &mut [u8],
    l: &mut [u8],
) -> Built
    requires patterned { Patterned a.now z.now t.now q.now u.now rank.now keep.now × Sited (lines_in t.now) m.now }
    requires rounds_value { rounds ≡ (run 100 (program (lines_in t.now))).rounds }
    ensures { Gives (a.now ++ z.now) v.old l.old result v.new l.new }
{
    let whole = a.len() + z.len();
    if v.len() < whole {
        return answer_built::refused(11, whole);
    }
    marked(a, z, t, q, m, rounds, u, rank, keep, v, l)
}

// Where constructors are declared, put into m; then row 11 and both sheets.
fn sited(
    a: &[u8],
    z: &[u8],
    t: &[u32],
    q: &[u32],
    m: &mut [u16],
    rounds: usize,
    u: &[u16],
    rank: &[u16],
    keep: &[u8],
    v: &mut [u8],
    l: &mut [u8],
) -> Built
    requires patterned { Patterned a.now z.now t.now q.now u.now rank.now keep.now × (length m.old ≡ 3 * count_of name_line (lines_in t.now)) }
    requires rounds_value { rounds ≡ (run 100 (program (lines_in t.now))).rounds }
    ensures { Gives (a.now ++ z.now) v.old l.old result v.new l.new }
{
    pattern_ctors::fill(t, m);
    counted(a, z, t, q, m, rounds, u, rank, keep, v, l)
}

// Rows 11 and 12, and both sheets: three cells for each name.
pub fn patterned(
    a: &[u8],
    z: &[u8],
    t: &[u32],
    q: &[u32],
    rounds: usize,
    u: &[u16],
    rank: &[u16],
    keep: &[u8],
    v: &mut [u8],
    l: &mut [u8],
) -> Built
    requires patterned { Patterned a.now z.now t.now q.now u.now rank.now keep.now }
    requires rounds_value { rounds ≡ (run 100 (program (lines_in t.now))).rounds }
    ensures { Gives (a.now ++ z.now) v.old l.old result v.new l.new }
{
    let names = table_access::names(t);
    let mut m = [0u16; 768];
    sited(
        a,
        z,
        t,
        q,
        &mut m[0..3 * names],
        rounds,
        u,
        rank,
        keep,
        v,
        l,
    )
}
