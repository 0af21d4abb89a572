// The answer to a sheet that may end in a pattern: everything is in specs/.
#![tactic(auto)]
