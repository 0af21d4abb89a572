// The type that the definitions in specs/ and the contracts of the build share.
#![tactic(auto)]

// Whether a row applies (FORMAT, section 4): its code and place.
#[derive(Clone, Copy)]
pub enum Refusal {
    Accepted,
    Refused { code: u32, place: usize },
}
