// What two columns in a byte mean: every call under unpacking (paper 02, request 6). No code.
#![tactic(auto)]
