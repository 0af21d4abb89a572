// Writes the nodes of types as A and Y lines of the left sheet, one node after the other.
ghost use Rattle.std.specs.Prelude.{◌≡◌, map};
ghost use Rattle.form_nodes.specs.Words.{node_of};
ghost use Rattle.left_emitter.specs.Pens.{Room, sheet, write_lines};

use left_emitter::Pen;

// The lines of nodes, children before their parent.
pub fn write_nodes(nodes: &[u64], stack: &mut [u32], out: &mut [u8], p: Pen) -> Pen
    requires { Room (map node_of nodes.now) p out.old stack.old }
    ensures { sheet result out.new stack.new ≡ write_lines (map node_of nodes.now) (sheet p out.old stack.old) }
{
    let mut q = p;
    for w in nodes {
        q = left_emitter::write_node(*w, stack, out, q);
    }
    q
}
