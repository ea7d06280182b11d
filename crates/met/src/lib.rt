// No code: where the items of a tree that was read stand (Request 08). Each begins at a tail of the bytes, and passing over it where 32 levels are left leads to its end.
#![tactic(auto)]
