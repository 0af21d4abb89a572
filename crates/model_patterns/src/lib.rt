// How patterns follow the layouts of their types.
#![tactic(auto)]
