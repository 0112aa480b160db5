// What is to be sent for a wanted picture, and what it does to the glass (paper 02, requests 2 and 12). No code.
#![tactic(auto)]
