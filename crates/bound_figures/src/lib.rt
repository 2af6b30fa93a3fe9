// What exploring comes to, and how it is put together: a step more, STOP, a refusal, the two ways of a branch. The meaning is in specs/.
#![tactic(auto)]

ghost use Rattle.std.specs.Prelude.{◌≡◌, ◌<◌, ◌≤◌, max};
ghost use Rattle.bound_figures.specs.HeldFigures.{zero_tally, price, more_of, jumped_of, decided_of, joined_of, both_of, finished_of, refused_as, Summable};

use refusals::Refusal;

// What exploring comes to: the verdict, the steps walked, and where it is accepted the figures of the report.
// `path` has a bit for each decision, the first one lowest, 1 for taken, with a 1 above the last.
#[derive(Clone, Copy)]
pub struct Found {
    pub verdict: Result<(), Refusal>,
    pub used: usize,
    pub cycles: u64,
    pub words: u64,
    pub depth: u64,
    pub path: u64,
}

// What the steps since the last branch come to, and how many are left of the budget.
#[derive(Clone, Copy)]
pub struct Tally {
    pub left: usize,
    pub cycles: u64,
    pub words: u64,
    pub depth: u64,
}

// No step yet of a budget.
pub fn nothing(budget: usize) -> Tally
    ensures { result ≡ zero_tally budget }
{
    Tally {
        left: budget,
        cycles: 0,
        words: 0,
        depth: 0,
    }
}

// The path of the way that costs more, with the decision that leads to it.
fn decided(k: u64, l: u64, p: u64, q: u64) -> u64
    requires { (p ≤ 4294967296) × (q ≤ 4294967296) }
    ensures { result ≡ decided_of k l p q }
{
    if k <= l { 2 * q + 1 } else { 2 * p }
}

// One step more, from a state of height `h`.
pub fn more(t: Tally, cycles: u32, words: u32, h: usize) -> Tally
    requires { (0 < t.left) × ((t.cycles ≤ 8589934592000000) × (t.words ≤ 4294967296000000)) }
    ensures { result ≡ more_of t (price cycles words) h }
{
    let c = t.cycles + (cycles as u64);
    let w = t.words + (words as u64);
    let depth = t.depth.max(h as u64);
    Tally {
        left: t.left - 1,
        cycles: c,
        words: w,
        depth: depth,
    }
}

// The last step is a conditional branch that jumps, and its extra is paid.
pub fn jumped(t: Tally, extra: u32) -> Tally
    requires { t.cycles ≤ 8589934592000000 }
    ensures { result ≡ jumped_of t extra }
{
    let c = t.cycles + (extra as u64);
    Tally {
        left: t.left,
        cycles: c,
        words: t.words,
        depth: t.depth,
    }
}

// `n` steps, the last of them STOP.
pub fn finished(t: Tally, n: usize) -> Found
    ensures { result ≡ finished_of t n }
{
    Found {
        verdict: Ok(()),
        used: n,
        cycles: t.cycles,
        words: t.words,
        depth: t.depth,
        path: 1,
    }
}

// A refusal, after the steps walked.
pub fn refused(x: Refusal, walked: usize) -> Found
    ensures { result ≡ refused_as x walked }
{
    Found {
        verdict: Err(x),
        used: walked,
        cycles: 0,
        words: 0,
        depth: 0,
        path: 1,
    }
}

// `n` steps, and then the two ways of a branch, with the extra on the taken one.
pub fn joined(t: Tally, n: usize, f: Found, extra: u32, g: Found) -> Found
    requires { Summable t n f g }
    ensures { result ≡ joined_of t n f extra g }
{
    let taken = (extra as u64) + g.cycles;
    let cycles = t.cycles + f.cycles.max(taken);
    let words = t.words + f.words.max(g.words);
    let depth = t.depth.max(f.depth.max(g.depth));
    let path = decided(f.cycles, taken, f.path, g.path);
    Found {
        verdict: Ok(()),
        used: n + f.used + g.used,
        cycles: cycles,
        words: words,
        depth: depth,
        path: path,
    }
}

// `n` steps, and then the two ways of a branch: the first refusal of the two, or both joined.
pub fn both(t: Tally, n: usize, f: Found, extra: u32, g: Found) -> Found
    requires { Summable t n f g }
    ensures { result ≡ both_of t n f extra g }
{
    let first = f.verdict;
    if let Err(refusal) = first {
        return refused(refusal, n + f.used);
    }
    let second = g.verdict;
    if let Err(refusal) = second {
        return refused(refusal, n + f.used + g.used);
    }
    joined(t, n, f, extra, g)
}
