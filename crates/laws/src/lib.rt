// What follows from the definitions of `sheet` alone. No code.
#![tactic(auto)]
