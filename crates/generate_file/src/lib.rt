// The test load from a seed: definitions and laws. The meaning is in specs/.
#![tactic(auto)]

// What a row of words on a line of the file holds: the names of the kinds; BUDGET and TICK; cycles; words; extras; cells that are all
// handles, all numbers, or numbers and unknowns.
#[derive(Clone, Copy)]
pub enum Column {
    Names,
    Limits,
    Cycles,
    Words,
    Extras,
    Handles,
    Known,
    Open,
}
