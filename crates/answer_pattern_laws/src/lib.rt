// Laws of the answer to a sheet that may end in a pattern, and of its cut: they are in specs/.
#![tactic(auto)]
