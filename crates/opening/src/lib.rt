// The commands that open a transfer, and what is left of it after them. No code.
#![tactic(auto)]
