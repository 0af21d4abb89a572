// The declarations that each type names, as sets, one for each type of a sheet that passed rows 1 to 7. The set of a type
// is the union of those of its children, which are lower, and of the name of a `TApp`: types are gone over as lines, not as trees.
#![tactic(auto)]

mod childsets;
mod sets;

ghost use Rattle.std.specs.Prelude.{◌+◌, ◌*◌, ◌≤◌, ◌<◌, length};
ghost use Rattle.meaning.specs.Program as program;
ghost use Rattle.meaning.specs.Rows as rows;
ghost use Rattle.table_access.specs.Tables as tables;
ghost use Rattle.mention_types.specs.Mentions.{Mentioned};

// The set of type y, after those of the types before it.
fn add_line(t: &[u32], sets: &mut [u64], words: usize, y: usize)
    requires tabled { tables.Tabled t.now }
    requires mentioned { Mentioned (tables.lines_in t.now) words sets.old y }
    requires y_bound { y < rows.count_of program.type_line (tables.lines_in t.now) }
    ensures { Mentioned (tables.lines_in t.now) words sets.new (y + 1) }
{
    set_bits::clear(sets, y * words, words);
    let kind = table_access::type_number(t, y, 0);
    match kind {
        7 => childsets::add_arrow(t, sets, words, y),
        8 => childsets::add_app(t, sets, words, y),
        9 => childsets::add_tuple(t, sets, words, y),
        11 => childsets::add_child(t, sets, words, y, 2),
        10 | 12 => childsets::add_child(t, sets, words, y, 1),
        0..=6 => {}
        _ => {}
    }
}

// The sets of all types, of words words each.
pub fn mentions(t: &[u32], sets: &mut [u64], words: usize)
    requires tabled { tables.Tabled t.now }
    requires t_bound { tables.decls_of (tables.lines_in t.now) ≤ 64 * words }
    requires words_in_bounds { rows.count_of program.type_line (tables.lines_in t.now) * words ≤ length sets.old }
    ensures { Mentioned (tables.lines_in t.now) words sets.new (rows.count_of program.type_line (tables.lines_in t.now)) }
{
    let n = table_access::types(t);
    for y in 0..n {
        add_line(t, sets, words, y);
    }
}
