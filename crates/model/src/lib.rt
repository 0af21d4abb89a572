// The model of the source's pass.
#![tactic(auto)]
