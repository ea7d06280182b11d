// No code: document 01's order as a list of checks with their places (Request 08), that the reader gives the first that fails, and that what stands there is what that check refuses.
#![tactic(auto)]
