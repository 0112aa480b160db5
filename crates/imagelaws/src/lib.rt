// What follows from the definitions of RAM images: what is written is read back, and what is accepted gives each column once. No code.
#![tactic(auto)]
