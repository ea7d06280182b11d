// What a view and a listing show after a file was accepted: statements in specs/, theorems in proofs/. There is no code.
#![tactic(auto)]
