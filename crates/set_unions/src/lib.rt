// Unions of sets as bits in words (`set_bits`). By index in both: no plainer by zip, since both sets may lie in one slice.
#![tactic(auto)]

ghost use Rattle.std.specs.Prelude.{◌⊎◌, ◌≡◌, ◌+◌, ◌≤◌, length};
ghost use Rattle.set_bits.specs.Bits as bits;

// Puts the members of the set of t at `from` into the set of s at `to`.
pub fn unite(s: &mut [u64], to: usize, t: &[u64], from: usize, words: usize)
    requires words_in_bounds { to + words ≤ length s.old }
    requires words_in_bounds_2 { from + words ≤ length t.now }
    ensures { s.new ≡ bits.united s.old to t.now from words }
{
    for w in 0..words {
        let x = s[to + w];
        s[to + w] = x | t[from + w];
    }
}

// Puts the members of the set at `from` into another set of the same slice, of words that do not lie across.
pub fn unite_within(s: &mut [u64], to: usize, from: usize, words: usize)
    requires words_in_bounds { (to + words ≤ length s.old) × (from + words ≤ length s.old) }
    requires fact { (to ≤ from) ⊎ (from + words ≤ to) }
    ensures { s.new ≡ bits.united s.old to s.old from words }
{
    for w in 0..words {
        let x = s[to + w];
        s[to + w] = x | s[from + w];
    }
}
