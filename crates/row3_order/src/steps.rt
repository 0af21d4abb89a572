// One line of row 3: what is due after it, by its letter and its numbers.
ghost use Rattle.std.specs.Prelude.{◌≡◌, ◌/◌, ◌<◌, leb, length};
ghost use Rattle.number_columns.specs.Column.{pick};
ghost use Rattle.walk_cells.specs.Cells.{lines_of};
ghost use Rattle.meaning.specs.Rows as rows;

use meaning::Due;

// What a D or I line announces, by its body kind, count of parameters and last number.
#[tactic(auto, unfolding(meaning::specs::Rows::announced))]
fn announced(kind: u32, params: u32, last: u32) -> Due
    ensures { result ≡ rows.announced kind params last }
{
    match kind {
        2 => Due::Within {
            params,
            fields: last,
            ctors: 0,
        },
        3 => Due::Within {
            params,
            fields: 0,
            ctors: last,
        },
        0..=1 => Due::Within {
            params,
            fields: 0,
            ctors: 0,
        },
        _ => Due::Broken,
    }
}

// A line of the header's part `next`, where the header is at part `place`.
fn later(place: u32, next: u32) -> Due
    ensures { result ≡ pick (leb place next) (Due.Header next) Due.Broken }
{
    if place <= next {
        return Due::Header(next);
    }
    Due::Broken
}

// Line i, outside a declaration.
#[tactic(auto, unfolding(meaning::specs::Rows::due_header))]
fn header(t: &[u32], i: usize, place: u32) -> Due
    requires { i < length t.now / 6 }
    ensures { result ≡ rows.due_header place (rows.nth_line (lines_of t.now) i) }
{
    let letter = walk_cells::letter(t, i);
    match letter {
        78 => later(place, 0),
        65 => later(place, 1),
        89 => later(place, 2),
        68 | 73 => announced(
            walk_cells::number(t, i, 2),
            walk_cells::number(t, i, 3),
            walk_cells::number(t, i, 4),
        ),
        _ => Due::Broken,
    }
}

// Line i, in a declaration.
#[tactic(auto, unfolding(meaning::specs::Rows::due))]
fn within(t: &[u32], i: usize, params: u32, fields: u32, ctors: u32) -> Due
    requires { i < length t.now / 6 }
    ensures { result ≡ rows.due (Due.Within params fields ctors) (rows.nth_line (lines_of t.now) i) }
{
    let letter = walk_cells::letter(t, i);
    match letter {
        80 => {
            if params == 0 {
                return Due::Broken;
            }
            Due::Within {
                params: params - 1,
                fields,
                ctors,
            }
        }
        70 => {
            if params > 0 {
                return Due::Broken;
            }
            if fields == 0 {
                return Due::Broken;
            }
            Due::Within {
                params: 0,
                fields: fields - 1,
                ctors,
            }
        }
        67 => {
            if params > 0 {
                return Due::Broken;
            }
            if fields > 0 {
                return Due::Broken;
            }
            if ctors == 0 {
                return Due::Broken;
            }
            Due::Within {
                params: 0,
                fields: walk_cells::number(t, i, 1),
                ctors: ctors - 1,
            }
        }
        86 => {
            if params > 0 {
                return Due::Broken;
            }
            if fields > 0 {
                return Due::Broken;
            }
            if ctors > 0 {
                return Due::Broken;
            }
            Due::Header(3)
        }
        _ => Due::Broken,
    }
}

// What is due after line i, where q was due.
#[tactic(auto, unfolding(meaning::specs::Rows::due))]
pub fn due(t: &[u32], i: usize, q: Due) -> Due
    requires { i < length t.now / 6 }
    ensures { result ≡ rows.due q (rows.nth_line (lines_of t.now) i) }
{
    match q {
        Due::Header(place) => header(t, i, place),
        Due::Within {
            params,
            fields,
            ctors,
        } => within(t, i, params, fields, ctors),
        Due::Broken => Due::Broken,
    }
}
