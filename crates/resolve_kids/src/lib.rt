// A Y line as a node of a type, whatever its kind: its parts, from left to right; and how many parameters a declaration has.
#![tactic(auto)]

pub mod arguments;

ghost use Rattle.std.specs.Prelude.{◌≡◌, ◌<◌, eqb, length};
ghost use Rattle.number_columns.specs.Column.{pick};
ghost use Rattle.sheet.specs.Line as line;
ghost use Rattle.meaning.specs.Program as program;
ghost use Rattle.meaning.specs.Rows as rows;
ghost use Rattle.table_access.specs.Tables as tables;
ghost use Rattle.resolve_kids.specs.Nodes as nodes;
ghost use Rattle.resolve_kids.specs.Params as params;

// How many parts the type of Y line y has.
pub fn kids(t: &[u32], y: usize) -> usize
    requires tabled { tables.Tabled t.now }
    requires y_bound { y < rows.count_of program.type_line (tables.lines_in t.now) }
    ensures { result ≡ nodes.kids_of (tables.lines_in t.now) y }
{
    let kind = table_access::type_number(t, y, 0);
    match kind {
        7 => 2,
        8 => table_access::type_number(t, y, 3) as usize,
        9 => table_access::type_number(t, y, 2) as usize,
        10..=12 => 1,
        _ => 0,
    }
}

// The Y line of its part i.
pub fn kid(t: &[u32], y: usize, i: usize) -> usize
    requires tabled { tables.Tabled t.now }
    requires y_bound { (y < rows.count_of program.type_line (tables.lines_in t.now)) × (i < nodes.kids_of (tables.lines_in t.now) y) }
    ensures { result ≡ nodes.kid_of (tables.lines_in t.now) y i }
{
    let kind = table_access::type_number(t, y, 0);
    match kind {
        7 => arrow_kid(t, y, i),
        8 => {
            let first = table_access::type_number(t, y, 2) as usize;
            table_access::arg(t, first + i)
        }
        9 => {
            let first = table_access::type_number(t, y, 1) as usize;
            table_access::arg(t, first + i)
        }
        11 => table_access::type_number(t, y, 2) as usize,
        _ => table_access::type_number(t, y, 1) as usize,
    }
}

// The two parts of an arrow.
fn arrow_kid(t: &[u32], y: usize, i: usize) -> usize
    requires tabled { tables.Tabled t.now }
    requires y_bound { y < rows.count_of program.type_line (tables.lines_in t.now) }
    ensures { result ≡ line.number (nodes.y_line (tables.lines_in t.now) y) (pick (eqb i 0) 1 3) }
{
    if i == 0 {
        return table_access::type_number(t, y, 1) as usize;
    }
    table_access::type_number(t, y, 3) as usize
}

// How many parameters declaration d has.
pub fn params(t: &[u32], d: usize) -> usize
    requires { tables.Tabled t.now × (d < tables.decls_of (tables.lines_in t.now)) }
    ensures { result ≡ length (params.params_of (tables.lines_in t.now) d) }
{
    let first = table_access::first_param(t, d);
    let end = table_access::first_param(t, d + 1);
    end.saturating_sub(first)
}
