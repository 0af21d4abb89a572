// Words put into an array where there is room: one, and words of the array that are put once more behind all that stands in it.
#![tactic(auto)]

ghost use Rattle.std.specs.Prelude.{◌∷◌, [], ◌-◌, ◌≤◌, length, take, drop};
ghost use Rattle.form_puts.specs.Put.{Put};

// A word at a place of the array, and the place after it; a place past the end where there is no room.
pub fn put(out: &mut [u64], at: usize, w: u64) -> usize
    requires { at ≤ length out.old }
    ensures { Put (w ∷ []) out.old at result out.new }
{
    if at < out.len() {
        out[at] = w;
        return at + 1;
    }
    at + 1
}

// The words from place `from` to place `end` once more, from place `at` on, and the place after them; a place past the end of
// the array where there is no room.
pub fn again(out: &mut [u64], from: usize, end: usize, at: usize) -> usize
    requires { (from ≤ end) × (end ≤ at) × (at ≤ length out.old) }
    ensures { Put (take (end - from) (drop from out.old)) out.old at result out.new }
{
    let n = end - from;
    if out.len() - at < n {
        return at + n;
    }
    out.copy_within(from..end, at);
    at + n
}
