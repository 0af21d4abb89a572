// The words that are put one at a time: of a type that has no parts, and of a node of a normal form, with the Y line of its argument.
ghost use Rattle.std.specs.Prelude.{◌≡◌, ◌<◌};
ghost use Rattle.meaning.specs.Program.{type_line};
ghost use Rattle.meaning.specs.Rows.{count_of};
ghost use Rattle.table_access.specs.Tables as tables;
ghost use Rattle.form_emit.specs.Filling.{leaf, Argument, left};

use form_node_words::{own_word, variable_word};
use form_nodes::{count, kind, own, pack};
use resolve_kids::{kid, kids};

// The word of a type that has no parts.
pub fn leaf_word(t: &[u32], y: usize, d: usize, places: bool) -> u64
    requires tabled { tables.Tabled t.now }
    requires y_bound { (y < count_of type_line (tables.lines_in t.now)) × (d < tables.decls_of (tables.lines_in t.now)) }
    ensures { result ≡ leaf (tables.lines_in t.now) d places y }
{
    let k = table_access::type_number(t, y, 0);
    if k == 3 {
        let v = table_access::type_number(t, y, 1);
        return variable_word(t, d, places, v);
    }
    own_word(t, y)
}

// The Y line of the argument for a word of a normal form; y where the word is no parameter, or one without an argument.
pub fn argument_line(t: &[u32], y: usize, w: u64) -> usize
    requires tabled { tables.Tabled t.now }
    requires y_bound { y < count_of type_line (tables.lines_in t.now) }
    ensures { Argument (tables.lines_in t.now) y w result }
{
    if kind(w) != 3 {
        return y;
    }
    let i = own(w) as usize;
    if i >= kids(t, y) {
        return y;
    }
    kid(t, y, i)
}

// A word of a normal form that no argument replaces.
pub fn left_word(w: u64) -> u64
    ensures { result ≡ left w }
{
    let k = kind(w);
    if k == 3 {
        return pack(0, 0, 0);
    }
    pack(k, count(w), own(w))
}
