// Outcomes of resolving types: the definitions and laws are in specs/.
#![tactic(auto)]

pub mod sums;
