// Laws of the keep table and of what becomes of each name: they are in specs/.
#![tactic(auto)]
