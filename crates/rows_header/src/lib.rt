// The lines before the declarations of a sheet that row 3 passed: what is known of them is in specs/.
#![tactic(auto)]
