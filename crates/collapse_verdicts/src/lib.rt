// From the marks and the kept fields to the verdicts: candidates, what the guard goes on through, the guard against cycles, layouts.
#![tactic(auto)]

mod guard;
mod laying;

ghost use Rattle.sheet.specs.Format.{base};
ghost use Rattle.meaning.specs.Program as program;
ghost use Rattle.meaning.specs.Rows as rows;
ghost use Rattle.table_access.specs.Tables as tables;
ghost use Rattle.mention_types.specs.Mentions.{Mentioned};
ghost use Rattle.keep_layouts.specs.Layouts.{Laid};
ghost use Rattle.collapse_candidates.specs.Candidates.{Ruled};
ghost use Rattle.collapse_verdicts.specs.Screening.{Room};

use keep_layouts::Verdict;

// The verdict on every declaration, in lent memory.
pub fn verdicts(
    t: &[u32],
    decl: &[u8],
    keep: &[u8],
    sets: &[u64],
    words: usize,
    fields: &mut [u16],
    bodies: &mut [u16],
    steps: &mut [u64],
    marks: &mut [u64],
    queue: &mut [u16],
    found: &mut [u8],
) -> [Verdict; 96]
    requires tabled_in { tables.TabledIn base t.now }
    requires ruled { Ruled (tables.lines_in t.now) decl.now keep.now }
    requires mentioned { Mentioned (tables.lines_in t.now) words sets.now (rows.count_of program.type_line (tables.lines_in t.now)) }
    requires room { Room (tables.decls_of (tables.lines_in t.now)) words fields.old bodies.old steps.old marks.old queue.old found.old }
    ensures { Laid (tables.lines_in t.now) result }
{
    collapse_candidates::candidates(t, decl, keep, fields);
    collapse_passes::passes(t, decl, fields, bodies);
    guard::dropped(t, sets, words, fields, bodies, steps, marks, queue, found);
    laying::compute_layouts(t, decl, keep, fields, found)
}
