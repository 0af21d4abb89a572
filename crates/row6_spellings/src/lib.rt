// Row 6, the names' spellings: of a sheet that passed rows 1 to 5.
#![tactic(auto)]

ghost use Rattle.std.specs.Prelude.{◌≡◌, ◌<◌};
ghost use Rattle.sheet.specs.Sheet as sheet;
ghost use Rattle.meaning.specs.Rows as rows;
ghost use Rattle.row6_spellings.specs.Spellings.{text_at};

use sheet_parts::{LINE, TEXT};

// The bytes of a name's text with the spaces after it.
const TEXT_BYTES: usize = 24;

pub fn same(a: &[u8], b: &[u8]) -> bool
    ensures { result ≡ rows.equal a.now b.now }
{
    a == b
}

// The part of line i where an N line has its text and the spaces after it. Row 2 checked it, so nothing is checked here.
pub fn text(s: &[u8], i: usize) -> &[u8]
    requires { i < sheet.count 6 s.now }
    ensures { result.now ≡ text_at 6 s.now i }
{
    let at = i * LINE + TEXT;
    let end = at + TEXT_BYTES;
    &s[at..end]
}
