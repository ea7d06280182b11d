// What any lent slice of bytes is: each below 256, and fewer than 2^64 of them. A law only: what the slice's type says of its items gives it.
#![tactic(auto)]
