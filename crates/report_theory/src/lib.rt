// The answers of the bound, of the merging bound and of the run to a text, and what is promised of them. Definitions and laws only.
#![tactic(auto)]
