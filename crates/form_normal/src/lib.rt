// The normal forms of unfolded declarations, one behind the other in one list of words.
#![tactic(auto)]
