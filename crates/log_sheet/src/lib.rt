// What a log means: its records, what a replay says of it, and what is kept of a torn one (paper 01, "Logs"; paper 02, requests 10 and 11). No code.
#![tactic(auto)]
