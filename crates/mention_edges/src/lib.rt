// The table of steps that the search goes by: each declaration's row is the set of the type that is its body.
#![tactic(auto)]

ghost use Rattle.std.specs.Prelude.{◌+◌, ◌*◌, ◌≤◌, ◌<◌, length};
ghost use Rattle.mention_edges.specs.Edges.{Edge, Edges};

// The row of declaration d.
fn edge(sets: &[u64], words: usize, types: usize, body: usize, steps: &mut [u64], d: usize)
    requires words_in_bounds { types * words ≤ length sets.now }
    requires words_in_bounds_2 { d * words + words ≤ length steps.old }
    ensures { Edge words types sets.now body d steps.old steps.new }
{
    let row = d * words;
    set_bits::clear(steps, row, words);
    if body < types {
        set_unions::unite(steps, row, sets, body * words, words);
    }
}

// The rows of as many declarations as there are bodies; a body that is none of the types is none.
pub fn edges(sets: &[u64], words: usize, types: usize, bodies: &[u16], steps: &mut [u64])
    requires words_in_bounds { types * words ≤ length sets.now }
    requires words_in_bounds_2 { length bodies.now * words ≤ length steps.old }
    ensures { Edges words types sets.now bodies.now (length bodies.now) steps.old steps.new }
{
    for (d, body) in bodies.iter().enumerate() {
        edge(sets, words, types, usize::from(*body), steps, d);
    }
}
