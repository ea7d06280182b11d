// The meaning of a .zt file: definitions in specs/, laws about them in proofs/. There is no code.
#![tactic(auto)]
