// Row 6, the names' spellings: the first name whose text a name before it has.
ghost use Rattle.std.specs.Prelude.{◌≡◌, ◌<◌};
ghost use Rattle.sheet.specs.Sheet as sheet;
ghost use Rattle.meaning.specs.Program.{name_line};
ghost use Rattle.meaning.specs.Rows as rows;
ghost use Rattle.row6_spellings.specs.Spellings.{Ranged, text_at, spelled_before};
ghost use Rattle.row6_spellings.specs.Spellings as spellings;
ghost use Rattle.number_words.specs.Word.{key_of};
ghost use Rattle.row6_distinct.specs.Keys.{Last, Befores};

use sheet_parts::LINE;

// A line before line i has its text. Of these lines only those of its key are looked at: line last - 1,
// then line before[last - 1] - 1 and so on, up to 0.
// A while and no for: the step is a link, and not one.
fn spelled_before(s: &[u8], i: usize, last: usize, before: &[u16; 256]) -> bool
    requires i_bound { (i < sheet.count 6 s.now) × (i < 256) }
    requires last { Last s.now (key_of (text_at 6 s.now i)) i last }
    requires befores { Befores s.now i before.now }
    ensures { result ≡ spelled_before 6 s.now i }
{
    let own = row6_spellings::text(s, i);
    let mut c = last;
    while c > 0 {
        let j = c - 1;
        if row6_spellings::same(row6_spellings::text(s, j), own) {
            return true;
        }
        c = usize::from(before[j]);
    }
    false
}

// The first of so many N lines whose spelling an earlier one has, or the count of lines. For each key
// the last line that has it is kept, and for each line the last one before it of the same key.
pub fn respelled(s: &[u8], names: usize) -> usize
    requires ranged { Ranged s.now }
    requires names_value { names ≡ rows.count_of name_line (sheet.lines 6 s.now) }
    ensures { result ≡ sheet.first (spellings.respelled (sheet.lines 6 s.now)) (sheet.count 6 s.now) }
{
    let mut lasts = [0u16; 1000];
    let mut before = [0u16; 256];
    for i in 0..names {
        let k = number_words::key(row6_spellings::text(s, i));
        let last = lasts[k];
        if spelled_before(s, i, usize::from(last), &before) {
            return i;
        }
        before[i] = last;
        lasts[k] = (i + 1) as u16;
    }
    s.len() / LINE
}
