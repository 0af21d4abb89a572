// The words of nodes: of a Y line's own node, and of a variable.
#![tactic(auto)]

ghost use Rattle.std.specs.Prelude.{◌≡◌, ◌+◌, ◌*◌, ◌≤◌, ◌<◌, length, get_or};
ghost use Rattle.meaning.specs.Program as program;
ghost use Rattle.meaning.specs.Rows as rows;
ghost use Rattle.table_access.specs.Tables as tables;
ghost use Rattle.resolve_kids.specs.Params as params;
ghost use Rattle.form_laws.specs.Nodes.{node};
ghost use Rattle.model.specs.Decl.{member};
ghost use Rattle.form_laws.specs.Forms.{place, variable};
ghost use Rattle.form_nodes.specs.Words.{word};
ghost use Rattle.form_node_words.specs.Own as specs;

use form_nodes::pack;

// The node of Y line y's type itself, where that is neither a variable nor a name.
pub fn own_word(t: &[u32], y: usize) -> u64
    requires tabled { tables.Tabled t.now }
    requires y_bound { y < rows.count_of program.type_line (tables.lines_in t.now) }
    ensures { result ≡ word (specs.y_node (tables.lines_in t.now) y) }
{
    let k = table_access::type_number(t, y, 0);
    let a = table_access::type_number(t, y, 1);
    let b = table_access::type_number(t, y, 2);
    match k {
        4 => pack(k, a, b),
        5 => pack(k, 0, a),
        6 => pack(k, 0, a),
        7 => pack(k, 2, b),
        9 => pack(k, b, 0),
        10 => pack(k, 1, 0),
        11 => pack(k, 1, a),
        12 => pack(k, 1, 0),
        _ => pack(k, 0, 0),
    }
}

// The place of v among the parameters of declaration d, and their number where it is none of them.
pub fn place_of(t: &[u32], d: usize, v: usize) -> usize
    requires { tables.Tabled t.now × (d < tables.decls_of (tables.lines_in t.now)) }
    ensures { result ≡ place (params.params_of (tables.lines_in t.now) d) v }
{
    let first = table_access::first_param(t, d);
    let n = resolve_kids::params(t, d);
    for i in 0..n {
        if table_access::param(t, first + i) == v {
            return i;
        }
    }
    n
}

// What becomes of declaration d's name: 0 erased, 1 and 2 unfolded, else it is left, as a foreign name is.
pub fn state(u: &[u16], d: usize) -> usize
    requires { d ≤ 512 }
    ensures { result ≡ get_or u.now (2 * d) 3 }
{
    if 2 * d >= u.len() {
        return 3;
    }
    u[2 * d] as usize
}

// The node of variable v in declaration d, told by its place or by its name; `TAny` where d does not bind it.
pub fn variable_word(t: &[u32], d: usize, places: bool, v: u32) -> u64
    requires { tables.Tabled t.now × (d < tables.decls_of (tables.lines_in t.now)) }
    ensures { result ≡ word (variable (member v (params.params_of (tables.lines_in t.now) d)) (specs.label places (params.params_of (tables.lines_in t.now) d) v)) }
{
    let i = place_of(t, d, v as usize);
    if i >= resolve_kids::params(t, d) {
        return pack(1, 0, 0);
    }
    if places {
        return pack(3, 0, i as u32);
    }
    pack(3, 0, v)
}
