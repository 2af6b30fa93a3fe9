// What the public functions answer: the number of the bytes of a report, or a refusal. The meaning is in specs/.
#![tactic(auto)]
