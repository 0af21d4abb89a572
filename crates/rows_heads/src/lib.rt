// Definitions and laws only: rows whose test is of declarations, from the number of a declaration to its D or I line.
#![tactic(auto)]
