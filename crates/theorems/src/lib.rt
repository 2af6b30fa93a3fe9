// What is promised to users, by name. Definitions and proofs only.
#![tactic(auto)]
