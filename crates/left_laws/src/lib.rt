// What is left of an accepted sheet's declarations: the definitions and laws are in specs/.
#![tactic(auto)]

// How many lines the left sheet has: A, Y and those of declarations.
#[derive(Clone, Copy)]
pub struct Count {
    pub args: usize,
    pub types: usize,
    pub lines: usize,
}
