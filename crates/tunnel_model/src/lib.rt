// No code: the tunnels of a table as statements. What one channel does by itself, what a table of any number of places does with its channels, and demand 3 (specs/).
#![tactic(auto)]
