// Rescuing what is sound: definitions in specs/, laws about them in proofs/.
#![tactic(auto)]
