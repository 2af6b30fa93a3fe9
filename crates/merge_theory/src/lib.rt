// The merging bound of a routine. Definitions and laws only: the code that computes it is above this layer.
#![tactic(auto)]
