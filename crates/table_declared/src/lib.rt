// Definitions and laws only: what the lines of a sheet that passed rows 1 to 7 say of its types and declarations, by their numbers.
#![tactic(auto)]
