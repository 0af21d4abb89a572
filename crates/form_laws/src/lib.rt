// Normal forms of types and their nodes: the laws are in specs.
#![tactic(auto)]
