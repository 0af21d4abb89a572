// Reading the number in six to nine columns.
ghost use Rattle.std.specs.Prelude.{◌≡◌, [], ◌∷◌, ◌≤◌, ◌<◌, ◌&&◌, eqb, length, get_or, Some, IfSome};
ghost use Rattle.number_columns.specs.declared.Scan.TheVariants.{In};
ghost use Rattle.number_columns.specs.Column as col;
ghost use Rattle.walk_decode.specs.NumberLaws.{Front};

// The number in two columns, if they hold one. A space counts as 0 and goes the same way as a digit: which of them it is cannot be foreseen.
fn pair(a: u32, b: u32) -> Option<u32>
    ensures { IfSome result (λ v. col.read (a ∷ b ∷ []) ≡ Some v) }
{
    match b {
        48..=57 => {}
        _ => return None,
    }
    match a {
        32 | 49..=57 => {}
        _ => return None,
    }
    Some(a % 16 * 10 + (b - 48))
}

// The number in three columns that are digits.
fn three(a: u32, b: u32, c: u32) -> Option<u32>
    ensures { IfSome result (λ v. col.read (a ∷ b ∷ c ∷ []) ≡ Some v) }
{
    match c {
        48..=57 => {}
        _ => return None,
    }
    match b {
        48..=57 => {}
        _ => return None,
    }
    match a {
        49..=57 => {}
        _ => return None,
    }
    Some((a - 48) * 100 + (b - 48) * 10 + (c - 48))
}

// The number in two columns, where nearly all have one digit.
fn one(a: u32, b: u32) -> Option<u32>
    ensures { result ≡ col.read (a ∷ b ∷ []) }
{
    match b {
        48..=57 => {}
        _ => return None,
    }
    match a {
        32 => Some(b - 48),
        49..=57 => Some((a - 48) * 10 + (b - 48)),
        _ => None,
    }
}

// Whether three spaces stand in front.
fn three_spaces(s: &[u8]) -> bool
    requires { 3 ≤ length s.now }
    ensures { result ≡ eqb (get_or s.now 0 0) 32 && eqb (get_or s.now 1 0) 32 && eqb (get_or s.now 2 0) 32 }
{
    s[0] == 32 && s[1] == 32 && s[2] == 32
}

// How many spaces stand in front.
fn front(s: &[u8]) -> usize
    ensures { Front s.now result }
{
    s.iter().position(|b| *b != 32).unwrap_or(s.len())
}

// The number of these digits.
fn digits(s: &[u8]) -> Option<u32>
    requires { length s.now < 10 }
    ensures { result ≡ col.told (col.scan (In 0) s.now) }
{
    let mut v = 0;
    for b in s {
        match *b {
            b'0'..=b'9' => v = v * 10 + u32::from(*b - b'0'),
            _ => return None,
        }
    }
    Some(v)
}

// The number in any columns: spaces, and then 0 alone, or digits of which the first is not 0.
pub fn any_number(s: &[u8]) -> Option<u32>
    requires { length s.now < 10 }
    ensures { result ≡ col.read s.now }
{
    let n = s.len();
    let i = front(s);
    if i == n {
        return None;
    }
    if s[i] == 48 {
        if i + 1 == n {
            return Some(0);
        }
        return None;
    }
    digits(&s[i..])
}

// The number in six columns where it has three digits at most.
fn small(s: &[u8]) -> Option<u32>
    requires { length s.now ≡ 6 }
    ensures { IfSome result (λ v. col.read s.now ≡ Some v) }
{
    if number_words::four_spaces(s[0], s[1], s[2], s[3]) {
        return pair(u32::from(s[4]), u32::from(s[5]));
    }
    if three_spaces(s) {
        return three(u32::from(s[3]), u32::from(s[4]), u32::from(s[5]));
    }
    None
}

// The number in six columns.
fn six(s: &[u8]) -> Option<u32>
    requires { length s.now ≡ 6 }
    ensures { result ≡ col.read s.now }
{
    if let Some(v) = small(s) {
        return Some(v);
    }
    any_number(s)
}

// The number in six to nine columns: in the last six, where spaces stand before them.
pub fn number(s: &[u8]) -> Option<u32>
    requires { (6 ≤ length s.now) × (length s.now < 10) }
    ensures { result ≡ col.read s.now }
{
    let n = s.len();
    if n > 6 && !number_words::four_spaces(s[0], s[1], s[2], s[3]) {
        return any_number(s);
    }
    six(&s[n - 6..])
}

// The same for numbers of which nearly all have one digit.
pub fn short_number(s: &[u8]) -> Option<u32>
    requires { (6 ≤ length s.now) × (length s.now < 10) }
    ensures { result ≡ col.read s.now }
{
    let n = s.len();
    if number_words::four_spaces(s[0], s[1], s[2], s[3])
        && number_words::four_spaces(s[n - 6], s[n - 5], s[n - 4], s[n - 3])
    {
        return one(u32::from(s[n - 2]), u32::from(s[n - 1]));
    }
    any_number(s)
}
