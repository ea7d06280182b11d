// Two engines, one table: definitions in specs/, laws about them in proofs/. The code is in crate sharing.
#![tactic(auto)]
