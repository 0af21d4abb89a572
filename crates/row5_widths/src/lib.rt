// Row 5: the width of an integer type (FORMAT, section 3).
#![tactic(auto)]

ghost use Rattle.std.specs.Prelude.{◌≡◌};
ghost use Rattle.meaning.specs.Rows as rows;

use meaning::Iwidth;

// The width that a number stands for: the cases of the source's `iwidth`, in its order.
#[tactic(auto, unfolding(meaning::specs::Rows::iwidth_of))]
pub fn iwidth_of(n: usize) -> Option<Iwidth>
    ensures { result ≡ rows.iwidth_of n }
{
    match n {
        8 => Some(Iwidth::W8),
        16 => Some(Iwidth::W16),
        32 => Some(Iwidth::W32),
        64 => Some(Iwidth::W64),
        128 => Some(Iwidth::W128),
        1 => Some(Iwidth::WSizet),
        _ => None,
    }
}

// Whether a number stands for one.
pub fn is_width(n: usize) -> bool
    ensures { result ≡ rows.is_width n }
{
    iwidth_of(n).is_some()
}
