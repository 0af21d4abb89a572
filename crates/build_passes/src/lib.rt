// The passes after row 7, over the table of a sheet: erasure, kept fields, layouts, what becomes of each name, and row 8.
#![tactic(auto)]

ghost use Rattle.std.specs.Prelude.{◌≡◌, ◌*◌, ◌≤◌, length};
ghost use Rattle.sheet.specs.Format.{base};
ghost use Rattle.meaning.specs.Program.{type_line, field_line};
ghost use Rattle.meaning.specs.Rows.{count_of};
ghost use Rattle.table_access.specs.Tables.{TabledIn, decls_of, lines_in};
ghost use Rattle.collapse_candidates.specs.Candidates.{Ruled};
ghost use Rattle.mention_types.specs.Mentions.{Mentioned};
ghost use Rattle.build_passes.specs.Passes.{Room, Lent, Judged, Ran};

// The rounds of erasure, and the first declaration that returns to itself, or the number of declarations.
#[derive(Clone, Copy)]
pub struct Run {
    pub rounds: usize,
    pub returning: usize,
}

// The verdicts, what becomes of each name, and row 8, in lent memory.
fn judged(
    t: &[u32],
    decl: &[u8],
    keep: &[u8],
    sets: &[u64],
    words: usize,
    u: &mut [u16],
    rank: &mut [u16],
    fields: &mut [u16],
    bodies: &mut [u16],
    steps: &mut [u64],
    marks: &mut [u64],
    queue: &mut [u16],
    found: &mut [u8],
) -> usize
    requires tabled_in { TabledIn base t.now × Ruled (lines_in t.now) decl.now keep.now }
    requires mentioned { Mentioned (lines_in t.now) words sets.now (count_of type_line (lines_in t.now)) }
    requires room { Room (decls_of (lines_in t.now)) words u.old rank.old fields.old bodies.old steps.old marks.old queue.old found.old }
    ensures { Judged (lines_in t.now) u.new result rank.old rank.new }
{
    let vs = collapse_verdicts::verdicts(
        t, decl, keep, sets, words, fields, bodies, steps, marks, queue, found,
    );
    state_names::states(t, vs, u);
    row8_returning::returning(t, u, sets, words, bodies, steps, rank)
}

// The same, with the sets of the names of types in lent memory.
fn mentioned(
    t: &[u32],
    decl: &[u8],
    keep: &[u8],
    sets: &mut [u64],
    words: usize,
    u: &mut [u16],
    rank: &mut [u16],
) -> usize
    requires tabled_in { TabledIn base t.now × Ruled (lines_in t.now) decl.now keep.now }
    requires lent { Lent (decls_of (lines_in t.now)) (count_of type_line (lines_in t.now)) words sets.old u.old rank.old }
    ensures { Judged (lines_in t.now) u.new result rank.old rank.new }
{
    mention_types::mentions(t, sets, words);
    let n = table_access::decls(t);
    let mut fields = [0u16; 96];
    let mut bodies = [0u16; 96];
    let mut steps = [0u64; 192];
    let mut marks = [0u64; 2];
    let mut queue = [0u16; 96];
    let mut found = [0u8; 96];
    judged(
        t,
        decl,
        keep,
        sets,
        words,
        u,
        rank,
        &mut fields[0..n],
        &mut bodies[0..n],
        &mut steps,
        &mut marks,
        &mut queue,
        &mut found,
    )
}

// Words of a set with a bit for each of n declarations.
fn words_for(n: usize) -> usize
    requires { n ≤ 96 }
    ensures { (n ≤ 64 * result) × (result ≤ 2) }
{
    if n <= 64 {
        return 1;
    }
    2
}

// In as many words as the sheet's types need: few for nearly every sheet.
fn named(t: &[u32], decl: &[u8], keep: &[u8], u: &mut [u16], rank: &mut [u16]) -> usize
    requires tabled_in { TabledIn base t.now × Ruled (lines_in t.now) decl.now keep.now }
    requires u_len { (length u.old ≡ 2 * decls_of (lines_in t.now)) × (length rank.old ≡ decls_of (lines_in t.now)) }
    ensures { Judged (lines_in t.now) u.new result rank.old rank.new }
{
    let words = words_for(table_access::decls(t));
    if table_access::types(t) * words <= 192 {
        let mut sets = [0u64; 192];
        return mentioned(t, decl, keep, &mut sets, words, u, rank);
    }
    let mut sets = [0u64; 2048];
    mentioned(t, decl, keep, &mut sets, words, u, rank)
}

// All passes: the keep table, what becomes of each name, and the ranks of declarations where none returns to itself.
pub fn passes(t: &[u32], keep: &mut [u8], u: &mut [u16], rank: &mut [u16]) -> Run
    requires tabled_in { TabledIn base t.now × (count_of field_line (lines_in t.now) ≤ length keep.old) }
    requires u_len { (length u.old ≡ 2 * decls_of (lines_in t.now)) × (length rank.old ≡ decls_of (lines_in t.now)) }
    ensures { Ran (lines_in t.now) keep.new u.new result rank.old rank.new }
{
    let e = erasure_fixpoint::erasure_fixpoint(t);
    let node = e.node;
    let decl = e.decl;
    keep_fields::keep_fields(t, &node, keep);
    let n = table_access::decls(t);
    let returning = named(t, &decl[0..n], keep, u, rank);
    Run {
        rounds: e.rounds,
        returning,
    }
}
