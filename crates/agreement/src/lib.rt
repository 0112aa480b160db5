// Demand 3: chips followed one by one and one long RAM agree; and the groups of the long RAM, whatever the order of their transfers. No code.
#![tactic(auto)]
