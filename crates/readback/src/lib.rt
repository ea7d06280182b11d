// No code: laws about the file that the writer's definitions give, and that it reads back.
#![tactic(auto)]
