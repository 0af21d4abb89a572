// The set of the declarations that a type names, by its kind, of the sets of its children, which are lower.
ghost use Rattle.std.specs.Prelude.{◌≡◌, ◌<◌};
ghost use Rattle.meaning.specs.Program as program;
ghost use Rattle.meaning.specs.Rows as rows;
ghost use Rattle.table_access.specs.Tables as tables;
ghost use Rattle.mention_types.specs.Mentions.{Adds, Mentioned};
ghost use Rattle.mention_types.specs.Mentions as spec;

// Puts the declarations of the type that number k of type y's line has into the set of type y.
pub fn add_child(t: &[u32], sets: &mut [u64], words: usize, y: usize, k: usize)
    requires tabled { tables.Tabled t.now }
    requires mentioned { Mentioned (tables.lines_in t.now) words sets.old y }
    requires y_bound { (y < rows.count_of program.type_line (tables.lines_in t.now)) × (k < 4) }
    requires k_bound { spec.part (tables.lines_in t.now) y k < y }
    ensures { Adds words y (spec.mentions (tables.lines_in t.now) (spec.part (tables.lines_in t.now) y k)) sets.old sets.new }
{
    let c = table_access::type_number(t, y, k) as usize;
    crate::sets::add_type(sets, words, y, c);
}

// Type y is an arrow.
pub fn add_arrow(t: &[u32], sets: &mut [u64], words: usize, y: usize)
    requires tabled { tables.Tabled t.now }
    requires mentioned { Mentioned (tables.lines_in t.now) words sets.old y }
    requires y_bound { (y < rows.count_of program.type_line (tables.lines_in t.now)) × (spec.part (tables.lines_in t.now) y 0 ≡ 7) }
    ensures { Adds words y (spec.mentions (tables.lines_in t.now) y) sets.old sets.new }
{
    add_child(t, sets, words, y, 1);
    add_child(t, sets, words, y, 3);
}

// Type y is a `TApp`.
pub fn add_app(t: &[u32], sets: &mut [u64], words: usize, y: usize)
    requires tabled { tables.Tabled t.now }
    requires mentioned { Mentioned (tables.lines_in t.now) words sets.old y }
    requires y_bound { (y < rows.count_of program.type_line (tables.lines_in t.now)) × (spec.part (tables.lines_in t.now) y 0 ≡ 8) }
    ensures { Adds words y (spec.mentions (tables.lines_in t.now) y) sets.old sets.new }
{
    let name = table_access::type_number(t, y, 1) as usize;
    let first = table_access::type_number(t, y, 2) as usize;
    let k = table_access::type_number(t, y, 3) as usize;
    crate::sets::add_name(t, sets, words, y, name);
    crate::sets::add_list(t, sets, words, y, first, k);
}

// Type y is a tuple.
pub fn add_tuple(t: &[u32], sets: &mut [u64], words: usize, y: usize)
    requires tabled { tables.Tabled t.now }
    requires mentioned { Mentioned (tables.lines_in t.now) words sets.old y }
    requires y_bound { (y < rows.count_of program.type_line (tables.lines_in t.now)) × (spec.part (tables.lines_in t.now) y 0 ≡ 9) }
    ensures { Adds words y (spec.mentions (tables.lines_in t.now) y) sets.old sets.new }
{
    let first = table_access::type_number(t, y, 1) as usize;
    let count = table_access::type_number(t, y, 2) as usize;
    crate::sets::add_list(t, sets, words, y, first, count);
}
