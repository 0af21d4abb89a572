// What the code of patterns is held to, line by line, is in specs/, with its laws.
#![tactic(auto)]
