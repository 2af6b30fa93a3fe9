// The import and the export undo each other: definitions and laws. The meaning is in specs/.
#![tactic(auto)]
