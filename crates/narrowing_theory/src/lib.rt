// What both bounds say of a start that knows more, and of one that knows all. Definitions and laws only.
#![tactic(auto)]
