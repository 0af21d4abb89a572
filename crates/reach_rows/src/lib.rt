// The table of steps of the reach index: each declaration's row is the union of the sets of all types in its body.
#![tactic(auto)]

ghost use Rattle.std.specs.Prelude.{◌≡◌, ◌+◌, ◌*◌, ◌-◌, ◌≤◌, ◌<◌, length};
ghost use Rattle.meaning.specs.Program.{type_line, field_line};
ghost use Rattle.meaning.specs.Rows.{count_of};
ghost use Rattle.table_access.specs.Tables as tables;
ghost use Rattle.mention_types.specs.Mentions.{Mentioned};
ghost use Rattle.reach_rows.specs.Steps.{Stepped};
ghost use Rattle.reach_rows.specs.Steps as spec;

// Puts the sets of the types of the fields from `first` up to `end` into the set at `at`.
fn put_fields(
    t: &[u32],
    sets: &[u64],
    words: usize,
    at: usize,
    first: usize,
    end: usize,
    steps: &mut [u64],
)
    requires tabled { tables.Tabled t.now }
    requires words_in_bounds { count_of type_line (tables.lines_in t.now) * words ≤ length sets.now }
    requires first_le_end { (first ≤ end) × (end ≤ count_of field_line (tables.lines_in t.now)) }
    requires words_in_bounds_2 { at + words ≤ length steps.old }
    ensures { steps.new ≡ spec.with_fields (tables.lines_in t.now) words sets.now steps.old at first (end - first) }
{
    for f in first..end {
        let y = table_access::field_number(t, f, 1) as usize;
        set_unions::unite(steps, at, sets, y * words, words);
    }
}

// The row of declaration d: of the type that it abbreviates, or of its fields, of which an abstract type has none.
fn put_row(t: &[u32], sets: &[u64], words: usize, d: usize, steps: &mut [u64])
    requires tabled { tables.Tabled t.now }
    requires words_in_bounds { count_of type_line (tables.lines_in t.now) * words ≤ length sets.now }
    requires d_bound { d < tables.decls_of (tables.lines_in t.now) }
    requires words_in_bounds_2 { d * words + words ≤ length steps.old }
    ensures { steps.new ≡ spec.with_row (tables.lines_in t.now) words sets.now steps.old d }
{
    let row = d * words;
    set_bits::clear(steps, row, words);
    if table_access::decl_number(t, d, 2) == 1 {
        let y = table_access::decl_number(t, d, 4) as usize;
        set_unions::unite(steps, row, sets, y * words, words);
        return;
    }
    let first = table_access::first_field(t, d);
    let end = table_access::first_field(t, d + 1);
    put_fields(t, sets, words, row, first, end, steps);
}

// The rows of all declarations. Words past the rows keep what they held.
pub fn rows(t: &[u32], sets: &[u64], words: usize, steps: &mut [u64])
    requires tabled { tables.Tabled t.now }
    requires mentioned { Mentioned (tables.lines_in t.now) words sets.now (count_of type_line (tables.lines_in t.now)) }
    requires words_bound { (words ≤ 1024) × (tables.decls_of (tables.lines_in t.now) * words ≤ length steps.old) }
    ensures { Stepped (tables.lines_in t.now) words steps.old steps.new }
{
    let n = table_access::decls(t);
    for d in 0..n {
        put_row(t, sets, words, d, steps);
    }
}
