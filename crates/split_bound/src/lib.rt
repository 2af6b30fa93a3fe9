// The bound by cases: cells of a start are cut at numbers, each case is bounded by merging, and the largest figures are reported. The meaning
// is in the specs of `split_theory`.
#![tactic(auto)]

ghost use Rattle.std.specs.Prelude.{◌≡◌, ◌≤◌, ◌<◌};
ghost use Rattle.machine_state.specs.HeldProgram.{program_of, sizes_of, IsProgram};
ghost use Rattle.machine_state.specs.HeldState.{WellFormed, whole};
ghost use Rattle.bound_figures.specs.HeldFigures.{Shows};
ghost use Rattle.merge_rows.specs.HeldRows.{Rows};
ghost use Rattle.merge_sweep.specs.HeldPass.{Figures};
ghost use Rattle.nearest_changes.specs.Places.{cell_at};
ghost use Rattle.nearest_changes.specs.Held.{Present};
ghost use Rattle.split_theory.specs.Split.{split};
ghost use Rattle.split_theory.specs.Held.{cut_in, cuts_from, Few};
ghost use Rattle.split_bound.specs.Held.{parts_of, parts_at, Splittable, Replaced, larger_of};

use bound_figures::Found;
use cells::{Cell, Value};
use machine_state::State;
use nearest_changes::Position;
use split_theory::Cuts;

// What a number makes of a cell: its two parts, or nothing.
#[derive(Clone, Copy)]
pub enum Parts {
    Two(Cell, Cell),
    Whole,
}

// The parts of a cell: its numbers below n, and those from n on. A handle, and a range that n does not divide, stays whole.
fn parts_of(c: Cell, n: i32) -> Parts
    ensures { result ≡ parts_of n c.value }
{
    let value = c.value;
    let Value::Range(low, more) = value else {
        return Parts::Whole;
    };
    if n <= low {
        return Parts::Whole;
    }
    let below = (n as i64 - low as i64) as u32;
    if more < below {
        return Parts::Whole;
    }
    let lower = Cell {
        value: Value::Range(low, below - 1),
    };
    let upper = Cell {
        value: Value::Range(n, more - below),
    };
    Parts::Two(lower, upper)
}

// The parts of the cell at p; nothing is divided where the start has no cell there.
fn parts_at(code: &[u32; 5131], start: State, blocks: [Cell; 128], p: Position, n: i32) -> Parts
    requires { IsProgram code.now × WellFormed start }
    ensures { result ≡ parts_at n (cell_at p (whole (sizes_of code.now) blocks start)) }
{
    match p {
        Position::Accu => parts_of(start.accu, n),
        Position::Entry(k) => {
            let free = start.free;
            if 64 - free <= k {
                return Parts::Whole;
            }
            let entry = free + k;
            parts_of(start.stack[entry], n)
        }
        Position::Field(b, k) => {
            let field = machine_state::slot_of(code, cells::handle(b), k);
            let Some(j) = field else {
                return Parts::Whole;
            };
            parts_of(blocks[j], n)
        }
    }
}

// What is found of two cases, of which the first is accepted.
fn larger(f: Found, g: Found) -> Found
    ensures { result ≡ larger_of f g }
{
    let verdict = g.verdict;
    let Ok(()) = verdict else {
        return g;
    };
    let cycles = f.cycles.max(g.cycles);
    let words = f.words.max(g.words);
    let depth = f.depth.max(g.depth);
    let used = (f.used as u64).max(g.used as u64);
    Found {
        verdict: Ok(()),
        used: used as usize,
        cycles: cycles,
        words: words,
        depth: depth,
        path: 1,
    }
}

// The parts that the cut at i makes of its cell.
fn cut_at(code: &[u32; 5131], cuts: Cuts, i: usize, start: State, blocks: [Cell; 128]) -> Parts
    requires { IsProgram code.now × WellFormed start × Few cuts × (i < cuts.count) }
    ensures { result ≡ parts_at (cut_in cuts i).number (cell_at (cut_in cuts i).place (whole (sizes_of code.now) blocks start)) }
{
    let places = cuts.places;
    let numbers = cuts.numbers;
    let p = nearest_changes::position_of(places[i]);
    parts_at(code, start, blocks, p, numbers[i])
}

// A start by its two parts.
#[derive(Clone, Copy)]
pub struct Case {
    pub start: State,
    pub blocks: [Cell; 128],
}

// The start with c at the place of the cut at i.
fn case_at(
    code: &[u32; 5131],
    cuts: Cuts,
    i: usize,
    start: State,
    blocks: [Cell; 128],
    c: Cell,
) -> Case
    requires { IsProgram code.now × WellFormed start × Few cuts × (i < cuts.count) × Present (cut_in cuts i).place (whole (sizes_of code.now) blocks start) }
    ensures { Replaced code.now start blocks (cut_in cuts i).place c result }
{
    let places = cuts.places;
    let p = nearest_changes::position_of(places[i]);
    let state = nearest_changes::with_entry(code, start, blocks, p, c);
    let changed = nearest_changes::with_field(code, start, blocks, p, c);
    Case {
        start: state,
        blocks: changed,
    }
}

// The bound by the cuts from the one at i on: two cases where it divides its cell, the numbers below first. Where that case is refused, the
// other is not looked at. All cases are passed through by the same rows, whatever these hold.
pub fn split(
    code: &[u32; 5131],
    cuts: Cuts,
    i: usize,
    start: State,
    blocks: [Cell; 128],
    rows: &mut [u64],
) -> Found
    requires { Splittable code.now start blocks × Few cuts × (i ≤ cuts.count) × Rows rows.old }
    ensures shows { Shows result (split (program_of code.now) (cuts_from cuts i) (whole (sizes_of code.now) blocks start)) }
    ensures figures { Figures 1025 result }
{
    if i == cuts.count {
        return merge_sweep::merge_by(code, start, blocks, rows);
    }
    let parts = cut_at(code, cuts, i, start, blocks);
    let Parts::Two(lower, upper) = parts else {
        return split(code, cuts, i + 1, start, blocks, rows);
    };
    let below = case_at(code, cuts, i, start, blocks, lower);
    let state = below.start;
    let held = below.blocks;
    let first = split(code, cuts, i + 1, state, held, rows);
    let verdict = first.verdict;
    let Ok(()) = verdict else {
        return first;
    };
    let from = case_at(code, cuts, i, start, blocks, upper);
    let state = from.start;
    let held = from.blocks;
    let second = split(code, cuts, i + 1, state, held, rows);
    larger(first, second)
}
