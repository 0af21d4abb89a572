// The lines of a pattern: everything is in specs/.
#![tactic(auto)]
