// The V lines of row 7: of an import, by its declaration's first line and kept fields, and of a local declaration.
ghost use Rattle.std.specs.Prelude.{◌≡◌, ◌/◌, ◌<◌, length};
ghost use Rattle.walk_cells.specs.Cells.{lines_of};
ghost use Rattle.meaning.specs.Rows as rows;
ghost use Rattle.row7_verdicts.specs.VerdictLines as lines;

// A record, or a variant of one constructor.
fn one_ctor(kind: u32, last: u32) -> bool
    ensures { result ≡ lines.one_ctor kind last }
{
    match kind {
        2 => true,
        3 => last == 1,
        _ => false,
    }
}

// A record or a variant.
fn has_ctors(kind: u32) -> bool
    ensures { result ≡ lines.has_ctors kind }
{
    matches!(&kind, 2..=3)
}

// An import's layout that is not erased, by its declaration's body kind and last number and its kept fields.
fn good_layout(layout: u32, kind: u32, last: u32, kept: usize) -> bool
    ensures { result ≡ lines.good_layout layout kind last kept }
{
    match layout {
        1 => one_ctor(kind, last) & (kept == 1),
        2 => has_ctors(kind),
        3 => kind == 1,
        4 => kind == 0,
        _ => false,
    }
}

// The V line i of an import that begins at line `head`.
pub fn good_verdict(t: &[u32], head: usize, kept: usize, i: usize) -> bool
    requires { (head < length t.now / 6) × (i < length t.now / 6) }
    ensures { result ≡ rows.good_verdict (rows.nth_line (lines_of t.now) head) kept (rows.nth_line (lines_of t.now) i) }
{
    let erased = walk_cells::number(t, i, 0);
    let layout = walk_cells::number(t, i, 1);
    let as_record = walk_cells::number(t, i, 2);
    let kind = walk_cells::number(t, head, 2);
    let last = walk_cells::number(t, head, 4);
    if as_record > 1 {
        return false;
    }
    match layout {
        0 => erased == 1,
        _ => (erased == 0) & good_layout(layout, kind, last, kept),
    }
}

// The V line i of a local declaration.
pub fn no_verdict(t: &[u32], i: usize) -> bool
    requires { i < length t.now / 6 }
    ensures { result ≡ lines.no_verdict (rows.nth_line (lines_of t.now) i) }
{
    let erased = walk_cells::number(t, i, 0);
    let layout = walk_cells::number(t, i, 1);
    let as_record = walk_cells::number(t, i, 2);
    (erased == 0) & (layout == 0) & (as_record == 0)
}
