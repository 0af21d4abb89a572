// Sets of numbers as bits in words. A slice of words may hold many sets: `at` is where the words of one begin.
#![tactic(auto)]

ghost use Rattle.std.specs.Prelude.{◌≡◌, ◌+◌, ◌*◌, ◌/◌, ◌≤◌, ◌<◌, length};
ghost use Rattle.sheet.specs.Sheet as sheet;
ghost use Rattle.set_bits.specs.Bits as bits;
ghost use Rattle.set_bits.specs.Outside as outside;

// Bits in a word.
pub const WORD: usize = 64;

// Whether m is in the set at `at`.
pub fn has(s: &[u64], at: usize, m: usize) -> bool
    requires { at + m / 64 < length s.now }
    ensures { result ≡ bits.has s.now at m }
{
    let x = s[at + m / WORD];
    (x >> (m % WORD)) % 2 == 1
}

// Puts m into the set at `at`.
pub fn insert(s: &mut [u64], at: usize, m: usize)
    requires { at + m / 64 < length s.old }
    ensures { s.new ≡ bits.inserted s.old at m }
{
    let w = at + m / WORD;
    let one = 1u64 << (m % WORD);
    let x = s[w];
    s[w] = x | one;
}

// Takes every member out of the set of `words` words at `at`.
pub fn clear(s: &mut [u64], at: usize, words: usize)
    requires { at + words ≤ length s.old }
    ensures { s.new ≡ bits.cleared s.old at words }
{
    s[at..at + words].fill(0);
}

// The first member of the set of s at `at` that the set of t at `to` has not, or the number of bits where there is none.
pub fn first_outside(s: &[u64], at: usize, t: &[u64], to: usize, words: usize) -> usize
    requires words_bound { words ≤ 1024 }
    requires words_in_bounds { at + words ≤ length s.now }
    requires words_in_bounds_2 { to + words ≤ length t.now }
    ensures { result ≡ sheet.first (outside.outside s.now at t.now to) (64 * words) }
{
    for w in 0..words {
        let x = s[at + w];
        let y = t[to + w];
        let new = x & (x ^ y);
        if new != 0 {
            let k = u64::trailing_zeros(new) as usize;
            return WORD * w + k;
        }
    }
    WORD * words
}
