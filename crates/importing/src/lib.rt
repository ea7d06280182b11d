// No code: a file of either layout, compared with what its import is written as.
#![tactic(auto)]
