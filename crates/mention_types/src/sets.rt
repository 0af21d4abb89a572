// What goes into the set of the declarations that a type names: those of lower types, and of a name.
ghost use Rattle.std.specs.Prelude.{◌≡◌, ◌+◌, ◌*◌, ◌≤◌, ◌<◌, length};
ghost use Rattle.meaning.specs.Program as program;
ghost use Rattle.meaning.specs.Rows as rows;
ghost use Rattle.table_access.specs.Tables as tables;
ghost use Rattle.set_bits.specs.Bits as bits;
ghost use Rattle.mention_types.specs.Mentions.{Adds, Lower, Inside};
ghost use Rattle.mention_types.specs.Mentions as spec;

// Puts the declarations of type c into the set of type y.
pub fn add_type(sets: &mut [u64], words: usize, y: usize, c: usize)
    requires { (c < y) × (y * words + words ≤ length sets.old) }
    ensures { Adds words y (bits.has sets.old (c * words)) sets.old sets.new }
{
    set_unions::unite_within(sets, y * words, c * words, words);
}

// Word w of the sets of the k types from A line first on, united.
fn list_word(t: &[u32], sets: &[u64], words: usize, w: usize, first: usize, k: usize) -> u64
    requires tabled { tables.Tabled t.now }
    requires inside { Inside (tables.lines_in t.now) words sets.now first k }
    requires w_lt_words { w < words }
    ensures { result ≡ spec.word_of (tables.lines_in t.now) words sets.now first w k }
{
    let mut x = 0;
    for j in 0..k {
        let c = table_access::arg(t, first + j);
        x |= sets[c * words + w];
    }
    x
}

// Puts the declarations of the k types from A line first on into the set of type y.
pub fn add_list(t: &[u32], sets: &mut [u64], words: usize, y: usize, first: usize, k: usize)
    requires tabled { tables.Tabled t.now }
    requires lower { Lower (tables.lines_in t.now) y first k }
    requires words_in_bounds { y * words + words ≤ length sets.old }
    ensures { Adds words y (spec.of_list (tables.lines_in t.now) words sets.old first k) sets.old sets.new }
{
    let row = y * words;
    for w in 0..words {
        sets[row + w] |= list_word(t, sets, words, w, first, k);
    }
}

// Puts the declaration of name n, if it has one, into the set of type y.
pub fn add_name(t: &[u32], sets: &mut [u64], words: usize, y: usize, n: usize)
    requires tabled { tables.Tabled t.now }
    requires n_bound { n < rows.count_of program.name_line (tables.lines_in t.now) }
    requires t_bound { (tables.decls_of (tables.lines_in t.now) ≤ 64 * words) × (y * words + words ≤ length sets.old) }
    ensures { Adds words y (spec.named (tables.lines_in t.now) n) sets.old sets.new }
{
    let d = table_access::decl_of(t, n);
    if d < table_access::decls(t) {
        set_bits::insert(sets, y * words, d);
    }
}
