// What every node reaches: the rows of a table of steps, made the rows of what is reached by way of one node after the other; and
// how many these are, as the ones of the words of a row.
#![tactic(auto)]

ghost use Rattle.std.specs.Prelude.{◌≡◌, ◌+◌, ◌*◌, ◌≤◌, ◌<◌, length};
ghost use Rattle.set_search.specs.Search.{Steps};
ghost use Rattle.set_closure.specs.Closure.{Rows, Through};
ghost use Rattle.set_closure.specs.Closure as closure;
ghost use Rattle.set_closure.specs.Ones.{ones_of};

// What row i reaches by way of node k.
fn pass(rows: &mut [u64], words: usize, n: usize, k: usize, i: usize)
    requires { Rows n words rows.old × (k < n) × (i < n) }
    ensures { rows.new ≡ closure.passed words k i rows.old }
{
    if !set_bits::has(rows, i * words, k) {
        return;
    }
    set_unions::unite_within(rows, i * words, k * words, words);
}

// What each of the n rows reaches by way of node k.
fn through(rows: &mut [u64], words: usize, n: usize, k: usize)
    requires { Rows n words rows.old × (k < n) }
    ensures { Through n words k n rows.old rows.new }
{
    for i in 0..n {
        pass(rows, words, n, k, i);
    }
}

// What each of the n rows reaches.
pub fn close(rows: &mut [u64], words: usize, n: usize)
    requires { Steps n words rows.old }
    ensures { closure.Closed n words rows.old rows.new }
{
    for k in 0..n {
        through(rows, words, n, k);
    }
}

// How many bits of the words at `at` are set.
pub fn ones(rows: &[u64], at: usize, words: usize) -> usize
    requires { (at + words ≤ length rows.now) × (words ≤ 1024) }
    ensures { (result ≡ ones_of rows.now at words) × (result ≤ 64 * words) }
{
    let mut sum: usize = 0;
    for w in 0..words {
        sum += u64::count_ones(rows[at + w]) as usize;
    }
    sum
}
