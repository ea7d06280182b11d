// Demand 3, for the reading of files: statements in specs/, theorems in proofs/. There is no code.
#![tactic(auto)]
