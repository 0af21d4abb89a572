// The claims are in specs/Claims.antt.
#![tactic(auto)]
