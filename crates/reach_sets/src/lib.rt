// The sets of the reach index, two words for each declaration that the format allows: by the names in the types of each body, and
// then through bodies.
#![tactic(auto)]

ghost use Rattle.std.specs.Prelude.{◌≡◌, ◌*◌, ◌≤◌, length};
ghost use Rattle.sheet.specs.Format.{base};
ghost use Rattle.meaning.specs.Program.{type_line, program};
ghost use Rattle.meaning.specs.Rows.{count_of};
ghost use Rattle.table_access.specs.Tables.{TabledIn, lines_in};
ghost use Rattle.mention_types.specs.Mentions.{Mentioned};
ghost use Rattle.answer_reach.specs.Given.{IndexOf};

// Words of a set, and of all sets.
pub const WORDS: usize = 2;

pub const ALL: usize = 192;

// The sets by the names in each type. Those of declarations that are not there are empty.
fn closed(t: &[u32], types: &[u64], sets: &mut [u64])
    requires tabled_in { TabledIn base t.now × (length sets.old ≡ 192) }
    requires mentioned { Mentioned (lines_in t.now) 2 types.now (count_of type_line (lines_in t.now)) }
    ensures { IndexOf 96 2 (program (lines_in t.now)) sets.new }
{
    let n = table_access::decls(t);
    reach_rows::rows(t, types, WORDS, sets);
    set_closure::close(sets, WORDS, n);
    set_bits::clear(sets, n * WORDS, ALL - n * WORDS);
}

// The same, in memory for the names in each type.
fn named(t: &[u32], types: &mut [u64], sets: &mut [u64])
    requires tabled_in { TabledIn base t.now × (length sets.old ≡ 192) }
    requires t_in_bounds { count_of type_line (lines_in t.now) * 2 ≤ length types.old }
    ensures { IndexOf 96 2 (program (lines_in t.now)) sets.new }
{
    mention_types::mentions(t, types, WORDS);
    closed(t, types, sets);
}

// The sets of a table's declarations: little memory for nearly every sheet.
pub fn fill(t: &[u32], sets: &mut [u64])
    requires { TabledIn base t.now × (length sets.old ≡ 192) }
    ensures { IndexOf 96 2 (program (lines_in t.now)) sets.new }
{
    if table_access::types(t) <= 96 {
        let mut types = [0u64; 192];
        named(t, &mut types, sets);
        return;
    }
    let mut types = [0u64; 2048];
    named(t, &mut types, sets);
}
