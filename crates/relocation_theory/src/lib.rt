// Code at other addresses. Definitions and laws only: no code moves a routine.
#![tactic(auto)]
