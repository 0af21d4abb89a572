// How many nodes each node reaches, as the ones of the words of its row.
ghost use Rattle.std.specs.Prelude.{◌*◌, ◌≤◌, ◌<◌, length};
ghost use Rattle.set_search.specs.Search.{Steps};
ghost use Rattle.set_search.specs.Search as search;
ghost use Rattle.set_search.specs.Loops.{First};
ghost use Rattle.row8_returning.specs.Ranks.{Ranks};

// The first of the n nodes that is in its own row, or n; and the ones of the rows before it.
fn count(rows: &[u64], words: usize, n: usize, rank: &mut [u16]) -> usize
    requires { (n * words ≤ length rows.now) × (words < 1024) × (n ≤ 64 * words) × (n ≤ length rank.old) }
    ensures { Ranks words n rows.now result rank.old rank.new }
{
    for k in 0..n {
        if set_bits::has(rows, k * words, k) {
            return k;
        }
        rank[k] = set_closure::ones(rows, k * words, words) as u16;
    }
    n
}

// The first of the n nodes of a table of steps that reaches itself, or n; and how many each node before it reaches. The table
// is made one of what is reached.
pub fn ranks(steps: &mut [u64], words: usize, n: usize, rank: &mut [u16]) -> usize
    requires steps { Steps n words steps.old }
    requires n_in_bounds { (n ≤ length rank.old) × (words < 1024) }
    ensures { First (search.steps n words steps.old) n result rank.old rank.new }
{
    set_closure::close(steps, words, n);
    count(steps, words, n, rank)
}
