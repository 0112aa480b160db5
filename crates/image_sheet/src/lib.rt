// What a RAM is as a file for the glass maker, and back (paper 02, request 13). No code.
#![tactic(auto)]
