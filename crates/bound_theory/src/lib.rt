// The bound and the run of a routine. Definitions and laws only: the code that computes them is above this layer.
#![tactic(auto)]
