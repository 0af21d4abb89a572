// Bytes taken four at a time, which is one load: a word tells each of them.
#![tactic(auto)]

ghost use Rattle.std.specs.Prelude.{◌≡◌, ◌&&◌, ◌+◌, ◌≤◌, ◌<◌, eqb, length};
ghost use Rattle.number_words.specs.Word.{word_at, key_of};

// Four spaces as a word.
const SPACES: u64 = 538976288;

fn wide(b: u8) -> u64
    ensures { (result ≡ b) × (result < 256) }
{
    b as u64
}

// Whether four bytes are spaces.
pub fn four_spaces(a: u8, b: u8, c: u8, d: u8) -> bool
    ensures { result ≡ eqb a 32 && eqb b 32 && eqb c 32 && eqb d 32 }
{
    wide(a) + wide(b) * 256 + wide(c) * 65536 + wide(d) * 16777216 == SPACES
}

// The four bytes from a place on as one number.
fn word(t: &[u8], at: usize) -> u64
    requires { at + 4 ≤ length t.now }
    ensures { (result ≡ word_at t.now at) × (result < 4294967296) }
{
    wide(t[at]) + wide(t[at + 1]) * 256 + wide(t[at + 2]) * 65536 + wide(t[at + 3]) * 16777216
}

// A number that texts of the same 24 bytes share.
pub fn key(t: &[u8]) -> usize
    requires { length t.now ≡ 24 }
    ensures { (result ≡ key_of t.now) × (result < 1000) }
{
    let k = word(t, 0) * 16777619
        + word(t, 4) * 165901211
        + word(t, 8) * 140295334
        + word(t, 12) * 204151523
        + word(t, 16) * 41766578
        + word(t, 20) * 23422577;
    (k / 16777216 % 1000) as usize
}
