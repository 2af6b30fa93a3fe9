// The bound by cases: cells of a start are cut at numbers, and each case is bounded by merging. The definitions and the laws; the code that
// computes it is above this layer.
#![tactic(auto)]

// The cuts in code: the first `count` places, each with the number at which the cell there is cut.
#[derive(Clone, Copy)]
pub struct Cuts {
    pub places: [usize; 16],
    pub numbers: [i32; 16],
    pub count: usize,
}
