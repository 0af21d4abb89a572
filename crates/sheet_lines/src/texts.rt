// Reading the text of a name.
ghost use Rattle.std.specs.Prelude.{◌≡◌, length, drop};
ghost use Rattle.sheet.specs.Line as line;
ghost use Rattle.sheet_lines.specs.Text.{text_length};

// A byte of a name's text.
fn graphic(b: u8) -> bool
    ensures { result ≡ line.graphic b }
{
    (33..=126).contains(&b)
}

// How many bytes of text come first.
fn spelled(t: &[u8]) -> usize
    ensures { result ≡ length (line.spelling t.now) }
{
    for (i, b) in t.iter().enumerate() {
        if !graphic(*b) {
            return i;
        }
    }
    t.len()
}

// Whether all bytes are spaces, byte by byte.
fn blank_rest(t: &[u8]) -> bool
    ensures { result ≡ line.spaces t.now }
{
    t.iter().all(|b| *b == 32)
}

// The same from a place on, four bytes at a time.
fn blank(t: &[u8], from: usize) -> bool
    ensures { result ≡ line.spaces (drop from t.now) }
{
    let n = t.len();
    let mut i = from;
    // A while and no for: the step is not one, and the last step is not whole.
    while i < n {
        if n - i < 4 {
            return blank_rest(&t[i..]);
        }
        if !number_words::four_spaces(t[i], t[i + 1], t[i + 2], t[i + 3]) {
            return false;
        }
        i += 4;
    }
    true
}

// The length of a name's text, 0 where it is not proper.
pub fn text_length(t: &[u8]) -> usize
    ensures { result ≡ text_length t.now }
{
    let n = spelled(t);
    if blank(t, n) { n } else { 0 }
}
