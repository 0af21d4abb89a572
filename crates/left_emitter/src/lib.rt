// Writes the nodes of types as A and Y lines of the left sheet, each line into its own 32 bytes.
#![tactic(auto)]

mod node_lines;

ghost use Rattle.std.specs.Prelude.{◌≡◌};
ghost use Rattle.form_laws.specs.Nodes.{args_of};
ghost use Rattle.form_nodes.specs.Words.{node_of};
ghost use Rattle.left_emitter.specs.Pens.{Ready, sheet, write_line};

use node_lines::{children, put_list, y_numbers};
use sheet_writer::row_at;

// Where the A and the Y lines of the left sheet begin, how many of each are written, and how many types wait for the
// node that has them as children.
#[derive(Clone, Copy)]
pub struct Pen {
    pub lists: usize,
    pub nodes: usize,
    pub args: usize,
    pub types: usize,
    pub waiting: usize,
}

// The lines of a node whose children are the last that wait.
pub fn write_node(w: u64, stack: &mut [u32], out: &mut [u8], p: Pen) -> Pen
    requires { Ready 1 (args_of (node_of w)) p out.old stack.old }
    ensures { sheet result out.new stack.new ≡ write_line (node_of w) (sheet p out.old stack.old) }
{
    let top = p.waiting;
    let at = top.saturating_sub(children(w));
    let args = p.args;
    let numbers = y_numbers(w, &stack[at..top], args as u32);
    let n = put_list(out, p.lists + args, w, &stack[at..top]);
    row_at(out, p.nodes + p.types, b'Y', numbers);
    stack[at] = p.types as u32;
    Pen {
        args: args + n,
        types: p.types + 1,
        waiting: at + 1,
        ..p
    }
}
