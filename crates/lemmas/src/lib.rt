// Facts about numbers and tests that the libraries lack. No code.
#![tactic(auto)]
