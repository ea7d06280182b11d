// No code: what changed between two models, and that the list of it is complete and holds nothing else.
#![tactic(auto)]
