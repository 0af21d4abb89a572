// The nodes of an instance of a type, from the sizes of the arguments.
#![tactic(auto)]

ghost use Rattle.std.specs.Prelude.{◌≡◌, ◌+◌, ◌≤◌, ◌<◌, length};
ghost use Rattle.meaning.specs.Program as program;
ghost use Rattle.meaning.specs.Rows as rows;
ghost use Rattle.table_access.specs.Tables as tables;
ghost use Rattle.resolve_outcomes.specs.Scratch as scratch;
ghost use Rattle.resolve_kids.specs.Nodes as nodes;
ghost use Rattle.resolve_weights.specs.Weigh as weigh;

// The nodes of Y line y's type, at the `count` outcomes from place `at` on for declaration d's
// arguments, added to `from`.
#[cycle(weigh_weigh_kids_weigh_once)]
pub fn weigh(
    t: &[u32],
    y: usize,
    d: usize,
    out: &[u16],
    at: usize,
    count: usize,
    from: usize,
) -> usize
    requires tabled { tables.Tabled t.now × (y < rows.count_of program.type_line (tables.lines_in t.now)) }
    requires d_bound { (d < tables.decls_of (tables.lines_in t.now)) × (at + count ≤ length out.now) × (from ≤ 1025) }
    ensures { result ≡ scratch.capped 1024 (from + weigh.weight_of (tables.lines_in t.now) d out.now at count y) }
{
    if table_access::type_number(t, y, 0) == 3 {
        let v = table_access::type_number(t, y, 1) as usize;
        return resolve_outcomes::sums::more(
            from,
            resolve_kids::arguments::argument(t, d, out, at, count, v) / 4,
        );
    }
    weigh_kids(
        t,
        y,
        d,
        out,
        at,
        count,
        resolve_outcomes::sums::more(from, 1),
    )
}

// The nodes of its parts; it stops above the limit.
#[cycle(weigh_weigh_kids_weigh_once)]
fn weigh_kids(
    t: &[u32],
    y: usize,
    d: usize,
    out: &[u16],
    at: usize,
    count: usize,
    from: usize,
) -> usize
    requires tabled { tables.Tabled t.now × (y < rows.count_of program.type_line (tables.lines_in t.now)) }
    requires d_bound { (d < tables.decls_of (tables.lines_in t.now)) × (at + count ≤ length out.now) × (from ≤ 1025) }
    ensures { result ≡ scratch.capped 1024 (from + weigh.weights_of (tables.lines_in t.now) d out.now at count y (nodes.kids_of (tables.lines_in t.now) y)) }
{
    let n = resolve_kids::kids(t, y);
    let mut w = from;
    let mut last = y;
    let mut prior = from;
    for i in 0..n {
        if w > resolve_outcomes::sums::LIMIT {
            return w;
        }
        let kid = resolve_kids::kid(t, y, i);
        let sum = weigh_once(t, kid, d, out, at, count, w, last, prior);
        last = kid;
        prior = w;
        w = sum;
    }
    w
}

// The nodes of a part, Y line y's type, added to `from`. Where the part before it is the same Y line,
// they are what was added to `prior`.
#[cycle(weigh_weigh_kids_weigh_once)]
fn weigh_once(
    t: &[u32],
    y: usize,
    d: usize,
    out: &[u16],
    at: usize,
    count: usize,
    from: usize,
    last: usize,
    prior: usize,
) -> usize
    requires tabled { tables.Tabled t.now × (y < rows.count_of program.type_line (tables.lines_in t.now)) }
    requires d_bound { (d < tables.decls_of (tables.lines_in t.now)) × (at + count ≤ length out.now) × (from ≤ 1025) }
    requires from_value { y ≡ last → from ≡ prior + weigh.weight_of (tables.lines_in t.now) d out.now at count y }
    ensures { result ≡ scratch.capped 1024 (from + weigh.weight_of (tables.lines_in t.now) d out.now at count y) }
{
    if y == last {
        return resolve_outcomes::sums::more(from, from - prior);
    }
    weigh(t, y, d, out, at, count, from)
}
