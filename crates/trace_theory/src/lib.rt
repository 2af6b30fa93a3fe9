// The run of a routine as a card would record it. Definitions and laws only: the code that writes it is above this layer.
#![tactic(auto)]
