// Writes lines that stand in cells, six to a line, into the part of an output that holds them.
#![tactic(auto)]

ghost use Rattle.std.specs.Prelude.{◌≡◌, suc, ◌*◌, ◌/◌, ◌≤◌, ◌<◌, length};
ghost use Rattle.sheet.specs.Line.{encode};
ghost use Rattle.sheet.specs.Output.{put_at};
ghost use Rattle.sheet.specs.Sheet.{encodes};
ghost use Rattle.walk_cells.specs.Cells.{lines_of};
ghost use Rattle.pattern_put.specs.Puts.{Bytes, nth_line};

use sheet_writer::row_at;
use walk_cells::{CELLS, letter, number};

// Line i of the cells as line i of the output.
fn put_line(q: &[u32], i: usize, out: &mut [u8])
    requires { (i < length q.now / 6) × (32 * suc i ≤ length out.old) × Bytes q.now }
    ensures { out.new ≡ put_at 6 out.old i (encode 6 (nth_line q.now i)) }
{
    let letter = letter(q, i) as u8;
    let numbers = [
        number(q, i, 0),
        number(q, i, 1),
        number(q, i, 2),
        number(q, i, 3),
        number(q, i, 4),
    ];
    row_at(out, i, letter, numbers);
}

// The lines of the cells, into as many bytes as they have.
pub fn put_lines(q: &[u32], out: &mut [u8])
    requires { (length out.old ≡ 32 * (length q.now / 6)) × Bytes q.now }
    ensures { out.new ≡ encodes 6 (lines_of q.now) }
{
    let n = q.len() / CELLS;
    for i in 0..n {
        put_line(q, i, out);
    }
}
