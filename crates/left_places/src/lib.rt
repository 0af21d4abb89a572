// Writes types and lines of the left sheet, each into its own 32 bytes: A and Y lines into their runs of lines, lines of
// declarations one behind the other.
#![tactic(auto)]

mod node_rows;

ghost use Rattle.std.specs.Prelude.{◌≡◌, ◌≤◌, length};
ghost use Rattle.sheet.specs.Line.{row};
ghost use Rattle.sheet.specs.Sheet.{lines};
ghost use Rattle.form_emit.specs.Left.{left_type};
ghost use Rattle.table_access.specs.Tables.{lines_in};
ghost use Rattle.left_places.specs.Places.{one, typed, Room, Writes, Typed};

use form_emit::emit;
use left_emitter::Pen;
use node_rows::write_nodes;
use sheet_writer::row_at;

// Where the A and the Y lines begin, how many of each are written, and the line at which declarations go on.
#[derive(Clone, Copy)]
pub struct Place {
    pub lists: usize,
    pub nodes: usize,
    pub args: usize,
    pub types: usize,
    pub line: usize,
}

// A line of a declaration.
pub fn put_line(out: &mut [u8], letter: u8, numbers: [u32; 5], p: Place) -> Place
    requires { Room (one (row letter numbers)) p out.old }
    ensures { Writes (one (row letter numbers)) p result out.old out.new }
{
    let line = p.line;
    row_at(out, line, letter, numbers);
    Place {
        line: line + 1,
        ..p
    }
}

// The A and Y lines of what Y line y's type resolves to in declaration d.
pub fn put_type(
    t: &[u32],
    u: &[u16],
    f: &[u64],
    scratch: &mut [u64],
    stack: &mut [u32],
    out: &mut [u8],
    y: usize,
    d: usize,
    p: Place,
) -> Place
    requires typed { Typed (lines_in t.now) t.now u.now f.now y d (length scratch.old) }
    requires scratch_in_bounds { length scratch.old ≤ length stack.old }
    requires room { Room (typed (left_type (lines_in t.now) d y)) p out.old }
    ensures { Writes (typed (left_type (lines_in t.now) d y)) p result out.old out.new }
{
    let n = emit(t, u, f, y, d, false, scratch, 0);
    let pen = Pen {
        lists: p.lists,
        nodes: p.nodes,
        args: p.args,
        types: p.types,
        waiting: 0,
    };
    let q = write_nodes(&scratch[0..n], stack, out, pen);
    Place {
        args: q.args,
        types: q.types,
        ..p
    }
}
