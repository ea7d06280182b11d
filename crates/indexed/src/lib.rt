// No code: the entry of an index in a map that was read (Request 08), where its name and its value stand.
#![tactic(auto)]
