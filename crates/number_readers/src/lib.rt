// Reading numbers in columns.
#![tactic(auto)]

ghost use Rattle.std.specs.Prelude.{◌≡◌, ◌≤◌, ◌<◌, length};
ghost use Rattle.number_columns.specs.declared.Scan.TheVariants.{Blank};
ghost use Rattle.number_columns.specs.Column as col;
ghost use Rattle.number_columns.specs.ColumnLaws.{Below};

use number_columns::Scan;

// One column more. Eight columns have been read at most, so that the ninth's digit still fits.
#[tactic(auto, unfolding(number_columns::specs::Column::step))]
fn step(st: Scan, b: u8) -> Scan
    requires { Below 8 st }
    ensures { result ≡ col.step st b }
{
    match st {
        Scan::Blank => match b {
            b' ' => Scan::Blank,
            b'0' => Scan::Zero,
            b'1'..=b'9' => Scan::In(u32::from(b - b'0')),
            _ => Scan::Broken,
        },
        Scan::In(v) => match b {
            b'0'..=b'9' => Scan::In(v * 10 + u32::from(b - b'0')),
            _ => Scan::Broken,
        },
        Scan::Zero | Scan::Broken => Scan::Broken,
    }
}

// What is read of the columns s. Nine columns at most: a u32 holds every number of nine digits.
fn scanned(s: &[u8]) -> Scan
    requires { length s.now ≤ 9 }
    ensures { result ≡ col.scan Blank s.now }
{
    let mut st = Scan::Blank;
    for b in s {
        st = step(st, *b);
    }
    st
}

// The number in the columns s, if they hold one.
#[tactic(auto, unfolding(number_columns::specs::Column::read))]
pub fn read_number(s: &[u8]) -> Option<u32>
    requires { length s.now < 10 }
    ensures { result ≡ col.read s.now }
{
    match scanned(s) {
        Scan::Zero => Some(0),
        Scan::In(v) => Some(v),
        Scan::Blank | Scan::Broken => None,
    }
}

// Whether a number can end so.
fn ends(st: Scan) -> bool
    ensures { result ≡ col.is_value (col.told st) }
{
    matches!(st, Scan::Zero | Scan::In(_))
}

// Whether the columns s hold a number. Four spaces are passed at once.
pub fn is_number(s: &[u8]) -> bool
    requires { length s.now < 10 }
    ensures { result ≡ col.is_value (col.read s.now) }
{
    if s.len() >= 4 && number_words::four_spaces(s[0], s[1], s[2], s[3]) {
        return ends(scanned(&s[4..]));
    }
    ends(scanned(s))
}
