// Ranges in the cells of a routine: definitions and laws only.
#![tactic(auto)]
