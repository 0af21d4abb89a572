// Counts the A lines of nodes; their Y lines are as many as they are.
ghost use Rattle.std.specs.Prelude.{◌≡◌, map, ◌≤◌, length};
ghost use Rattle.form_laws.specs.Nodes.{args_of, count_args};
ghost use Rattle.form_nodes.specs.Words.{node_of};

use form_nodes::{count, kind};

// How many A lines a node has.
fn node_args(w: u64) -> usize
    ensures { (result ≡ args_of (node_of w)) × (result ≤ 1023) }
{
    match kind(w) {
        8 | 9 => count(w) as usize,
        _ => 0,
    }
}

// How many A lines nodes have.
pub fn count_args(nodes: &[u64]) -> usize
    requires { length nodes.now ≤ 1048576 }
    ensures { result ≡ count_args (map node_of nodes.now) }
{
    let mut sum: usize = 0;
    for w in nodes {
        sum += node_args(*w);
    }
    sum
}
