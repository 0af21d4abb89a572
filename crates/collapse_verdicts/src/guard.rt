// The guard against cycles: `acyclic_candidates`. From a candidate the search goes on through the payloads of candidates, also of those
// that are dropped themselves, and through the bodies of unfolded abbreviations.
ghost use Rattle.meaning.specs.Program as program;
ghost use Rattle.meaning.specs.Rows as rows;
ghost use Rattle.table_access.specs.Tables as tables;
ghost use Rattle.mention_types.specs.Mentions.{Mentioned};
ghost use Rattle.collapse_candidates.specs.Candidates.{Fields};
ghost use Rattle.collapse_passes.specs.Passes.{Passes};
ghost use Rattle.collapse_verdicts.specs.Guard.{Lent, Guarded};

// 1 for each candidate that reaches itself.
pub fn dropped(
    t: &[u32],
    sets: &[u64],
    words: usize,
    fields: &[u16],
    bodies: &[u16],
    steps: &mut [u64],
    marks: &mut [u64],
    queue: &mut [u16],
    found: &mut [u8],
)
    requires tabled { tables.Tabled t.now }
    requires mentioned { Mentioned (tables.lines_in t.now) words sets.now (rows.count_of program.type_line (tables.lines_in t.now)) }
    requires fields { Fields (tables.lines_in t.now) fields.now }
    requires passes { Passes (tables.lines_in t.now) bodies.now }
    requires lent { Lent (tables.decls_of (tables.lines_in t.now)) words steps.old marks.old queue.old found.old }
    ensures { Guarded (tables.lines_in t.now) fields.now found.new }
{
    mention_edges::edges(sets, words, table_access::types(t), bodies, steps);
    set_search::loops::loops(
        steps,
        words,
        fields,
        collapse_candidates::NONE,
        marks,
        queue,
        found,
    );
}
