// The reach index of a sheet (FORMAT, section 13): everything is in specs/ but the type of an answer that writes lines.
#![tactic(auto)]

use answer::Refusal;

// Whether the sheet is refused, and the length of the lines that were written.
#[derive(Clone, Copy)]
pub struct Listing {
    pub refusal: Refusal,
    pub length: usize,
}
