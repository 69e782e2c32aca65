// No code: the statements of specs/, in the order of the three demands.
#![tactic(auto)]
