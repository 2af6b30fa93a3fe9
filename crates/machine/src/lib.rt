// The machine: definitions and laws. The meaning is in specs/.
#![tactic(auto)]
