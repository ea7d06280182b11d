// What was read can be written, and what was written reads back into a table: statements in specs/, theorems in proofs/. There is no code.
#![tactic(auto)]
