// Laws of the reach index: everything is in specs/.
#![tactic(auto)]
