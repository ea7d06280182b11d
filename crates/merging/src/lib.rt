// Merging two files: definitions in specs/, laws about them in proofs/. The code is in crate merge.
#![tactic(auto)]
