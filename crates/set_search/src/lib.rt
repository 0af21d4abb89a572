// The search through a table of steps: what a node reaches, left where it reaches itself.
#![tactic(auto)]

pub mod loops;

ghost use Rattle.std.specs.Prelude.{◌≤◌, ◌<◌, length};
ghost use Rattle.set_search.specs.Search.{Steps, Searched};
ghost use Rattle.set_search.specs.Search as spec;

use set_bits::WORD;

// How many nodes start reaches by the steps of a table of n rows, which are marked then; none where it reaches itself.
// The queue holds the start and each node that is marked, in the order in which they are met.
pub fn search(
    steps: &[u64],
    words: usize,
    n: usize,
    start: usize,
    marks: &mut [u64],
    queue: &mut [u16],
) -> Option<usize>
    requires steps { Steps n words steps.now }
    requires start_lt_n { start < n }
    requires words_in_bounds { words ≤ length marks.old }
    requires n_in_bounds { n ≤ length queue.old }
    ensures { Searched (spec.steps n words steps.now) n start result marks.new }
{
    set_bits::clear(marks, 0, words);
    queue[0] = start as u16;
    let none = WORD * words;
    let mut head = 0;
    let mut last = 0;
    'search: {
        // A while and no for: the queue grows while it is read.
        while head <= last {
            let node = queue[head] as usize;
            let row = node * words;
            let mut name = set_bits::first_outside(steps, row, marks, 0, words);
            while name < none {
                if name == start {
                    break 'search None;
                }
                set_bits::insert(marks, 0, name);
                last += 1;
                queue[last] = name as u16;
                name = set_bits::first_outside(steps, row, marks, 0, words);
            }
            head += 1;
        }
        Some(last)
    }
}
