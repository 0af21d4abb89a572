// The laws of `model` are in specs/. They stand in a crate of their own, so that an edit of a definition is held to its cases alone.
#![tactic(auto)]
