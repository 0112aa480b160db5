// How a function over a slice of structs is proved by hand: general lemmas, and no code.
#![tactic(auto)]
