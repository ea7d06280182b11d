// The cases of document 01 that are marked P, proved together: files and answers in specs/, the one statement in proofs/. There is no code.
#![tactic(auto)]
