// The spellings of names, of any bytes.
#![tactic(auto)]

ghost use Rattle.std.specs.Prelude.{◌≡◌};
ghost use Rattle.sheet.specs.Sheet.{name_text};

// The spelling of name n: the part of the sheet that holds it, empty where line n is no N line of number n.
#[tactic(auto, using(crate::specs::NameLaws::name_at))]
pub fn name(s: &[u8], n: usize) -> &[u8]
    ensures { result.now ≡ name_text 6 s.now n }
{
    match sheet_access::number_at(s, n, 0) {
        Ok(m) if m as usize == n => sheet_access::text_at(s, n),
        _ => &s[0..0],
    }
}
