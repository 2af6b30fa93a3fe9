// What is kept beside the rows of the merging bound: for each goal of a way, which is the address of a row or STOP, the last move of the
// costliest way that has come to it. The meaning is in specs/.
#![tactic(auto)]

ghost use Rattle.std.specs.Prelude.{◌≡◌, cond, ℕ, ◌+◌, ◌*◌, ◌<◌, ◌≤◌, eqb};
ghost use Rattle.machine.specs.Machine as machine;
ghost use Rattle.machine.specs.Machine.{State, height};
ghost use Rattle.machine_state.specs.HeldProgram.{first_address_of, IsProgram};
ghost use Rattle.bound_theory.specs.Traces.{Move};
ghost use Rattle.machine_step.specs.HeldStep.{of_next, Small, SmallPrice};
ghost use Rattle.merge_way.specs.Way.{to, Origins, mark, marked};
ghost use Rattle.merge_origins.specs.HeldOrigins.{Goals, last_at, keep_last, last_by, IsLast, Keeps};

use machine_step::{Next, Price};

// The last move of a way to a goal: its decision as a path of its own, the cycles of the way with this move, the cycles and the words of
// the move, the height of the stack before it, and the row of its address. Paths are numbers, as in `bound_figures`, so that 0 is none.
#[derive(Clone, Copy)]
pub struct Last {
    pub way: u64,
    pub sum: u64,
    pub cycles: u64,
    pub words: u64,
    pub depth: u64,
    pub row: u64,
}

// What is kept for the goal `g`.
pub fn last_of(kept: &[u64], g: usize) -> Last
    requires { Goals kept.now × (g < 1026) }
    ensures { result ≡ last_at kept.now g }
{
    let i = 6 * g;
    Last {
        way: kept[i],
        sum: kept[i + 1],
        cycles: kept[i + 2],
        words: kept[i + 3],
        depth: kept[i + 4],
        row: kept[i + 5],
    }
}

// The move `l` is kept for the goal `g`.
fn put(kept: &mut [u64], g: usize, l: Last)
    requires { Goals kept.old × (g < 1026) }
    ensures { (h : ℕ) → last_at kept.new h ≡ cond (eqb h g) l (last_at kept.old h) }
{
    let i = 6 * g;
    kept[i] = l.way;
    kept[i + 1] = l.sum;
    kept[i + 2] = l.cycles;
    kept[i + 3] = l.words;
    kept[i + 4] = l.depth;
    kept[i + 5] = l.row;
}

// A way whose last move is `l` comes to the goal `g`: it takes the place of what is kept only where it has more cycles.
fn keep(kept: &mut [u64], g: usize, l: Last)
    requires { Goals kept.old × (g < 1026) }
    ensures { (h : ℕ) → last_at kept.new h ≡ cond (eqb h g) (keep_last l (last_at kept.old g)) (last_at kept.old h) }
{
    let was = last_of(kept, g);
    if was.way == 0 {
        put(kept, g, l);
        return;
    }
    if was.sum < l.sum {
        put(kept, g, l);
    }
}

// A way whose last move is `l` comes to the address `at`, where the first row is that of `first`.
fn mark(kept: &mut [u64], first: usize, at: usize, l: Last)
    requires { Goals kept.old }
    ensures { (o : Origins) (p : machine.Price) (m : Move) → Keeps first kept.old o → IsLast first l (p.cycles + m.price.cycles) m → Keeps first kept.new (mark p m (to at) o) }
{
    if at < first {
        return;
    }
    let g = at - first;
    if g < 1025 {
        keep(kept, g, l);
    }
}

// The move at the price `p` from the address of a row, where the stack has the height `depth` and the ways there have cost `spent` at most.
fn last_by(way: u64, p: Price, spent: u64, depth: usize, row: usize) -> Last
    requires { (spent ≤ 8589934592 * 1025) × SmallPrice p }
    ensures { result ≡ last_by way p spent depth row }
{
    let sum = spent + p.cycles;
    Last {
        way: way,
        sum: sum,
        cycles: p.cycles,
        words: p.words,
        depth: depth as u64,
        row: row as u64,
    }
}

// The ways of a step from the address of a row go to their goals, the taken way of a branch first. After the step the machine is at the
// address `at`, and the first row is that of the program's first address.
pub fn depart(
    kept: &mut [u64],
    code: &[u32; 5131],
    row: usize,
    spent: u64,
    depth: usize,
    next: Next,
    at: usize,
)
    requires { Goals kept.old × (row < 1025) × (spent ≤ 8589934592 * 1025) × Small next × IsProgram code.now }
    ensures { (o : Origins) (p : machine.Price) (s t : State) → p.cycles ≡ spent → s.at ≡ first_address_of code.now + row → height s ≡ depth → t.at ≡ at → Keeps (first_address_of code.now) kept.old o → Keeps (first_address_of code.now) kept.new (marked p s (of_next next t) o) }
{
    let first = code[0] as usize;
    match next {
        Next::Stuck => {}
        Next::Stops(p) => {
            let l = last_by(1, p, spent, depth, row);
            keep(kept, 1025, l);
        }
        Next::Goes(p) => {
            let l = last_by(1, p, spent, depth, row);
            mark(kept, first, at, l);
        }
        Next::Opens(p, place, q) => {
            let t = last_by(3, q, spent, depth, row);
            mark(kept, first, place, t);
            let n = last_by(2, p, spent, depth, row);
            mark(kept, first, at, n);
        }
    }
}
