// Demand 3: what the rows of a recording are, whatever the list of calls. It has no code of its own.
#![tactic(auto)]
