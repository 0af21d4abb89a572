// The search from many nodes: which of them reach themselves, for the guard.
ghost use Rattle.std.specs.Prelude.{◌≡◌, ◌≤◌, ◌<◌, length};
ghost use Rattle.set_search.specs.Search.{Steps};
ghost use Rattle.set_search.specs.Search as spec;
ghost use Rattle.set_search.specs.Loops.{Looped};
ghost use Rattle.set_search.specs.Loops as loops;

// The mark of node k. From one that is no start nothing is searched.
fn mark(
    steps: &[u64],
    words: usize,
    starts: &[u16],
    none: u16,
    k: usize,
    marks: &mut [u64],
    queue: &mut [u16],
) -> u8
    requires steps { Steps (length starts.now) words steps.now }
    requires k_in_bounds { k < length starts.now }
    requires words_in_bounds { words ≤ length marks.old }
    requires starts_in_bounds { length starts.now ≤ length queue.old }
    ensures { result ≡ loops.mark (spec.steps (length starts.now) words steps.now) starts.now none k }
{
    if starts[k] == none {
        return 0;
    }
    let r = crate::search(steps, words, starts.len(), k, marks, queue);
    u8::from(r.is_none())
}

// Marks each node that is a start, its entry not `none`, by 1 if it reaches itself, and every other by 0.
pub fn loops(
    steps: &[u64],
    words: usize,
    starts: &[u16],
    none: u16,
    marks: &mut [u64],
    queue: &mut [u16],
    found: &mut [u8],
)
    requires steps { Steps (length starts.now) words steps.now }
    requires words_in_bounds { words ≤ length marks.old }
    requires starts_in_bounds { length starts.now ≤ length queue.old }
    requires starts_in_bounds_2 { length starts.now ≤ length found.old }
    ensures { Looped (spec.steps (length starts.now) words steps.now) starts.now none (length starts.now) found.old found.new }
{
    let n = starts.len();
    for k in 0..n {
        found[k] = mark(steps, words, starts, none, k, marks, queue);
    }
}
