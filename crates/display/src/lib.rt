// No code: the panel's text by what was read, without a table.
#![tactic(auto)]
