// The merging bound: one pass over the code's addresses in rising order, which merges the states where ways meet. The meaning is in specs/.
#![tactic(auto)]

ghost use Rattle.std.specs.Prelude.{◌≡◌, List, true, ℕ, suc, ◌+◌, ◌<◌, ◌≤◌, max, length, Ok};
ghost use Rattle.cells.specs.HeldConfined.{Kept};
ghost use Rattle.cells.specs.Cells.{unknown};
ghost use Rattle.machine.specs.Machine.{step};
ghost use Rattle.machine.specs.Order.{Cellwise};
ghost use Rattle.machine_state.specs.HeldProgram.{first_address_of, lines_in, program_of, sizes_of, IsProgram};
ghost use Rattle.machine_state.specs.HeldState.{WellFormed, whole};
ghost use Rattle.bound_theory.specs.Tree.{Report, accepted};
ghost use Rattle.machine_step.specs.HeldStep.{SmallPrice};
ghost use Rattle.bound_figures.specs.HeldFigures.{accepted_as, Shows};
ghost use Rattle.merge_theory.specs.Merge.{Table, slot, carry, visit, span, only, merged};
ghost use Rattle.merge_theory.specs.Ways.{sent, sends};
ghost use Rattle.merge_way.specs.Way.{Origins, marked, departs, nowhence};
ghost use Rattle.merge_way.specs.HeldBeside.{beside};
ghost use Rattle.merge_origins.specs.HeldOrigins.{Goals, Keeps};
ghost use Rattle.merge_rows.specs.HeldRows.{Formed, Numeric, Row, Rows, arrival_of, slot_in, slot_at, join_at, with, waiting, rows_of};
ghost use Rattle.merge_sweep.specs.HeldPass.{came_as, Held, Comes, Empty, Spent, most, Figures, Ready, Agrees, Moved, spent_of};

use bound_figures::Found;
use cells::Cell;
use machine_state::State;
use machine_step::{Next, Price};
use merge_rows::Way;
use refusals::Refusal;

// A way goes on from the address of row `j`: whether to the next. To any other it is sent.
fn onward(rows: &mut [u64], code: &[u32; 5131], j: usize, w: Way) -> bool
    requires { Rows rows.old × (j < rows_of code.now) × (Formed w × Numeric (sizes_of code.now) w) × IsProgram code.now }
    ensures by_index { (b : ℕ) → j < b → b < rows_of code.now → waiting (sizes_of code.now) result w (j + 1) b (slot_at (sizes_of code.now) (first_address_of code.now) rows.new b) ≡ join_at (first_address_of code.now + b) (arrival_of (sizes_of code.now) w) (slot_at (sizes_of code.now) (first_address_of code.now) rows.old b) }
    ensures comes { Comes (sizes_of code.now) result w (first_address_of code.now + (j + 1)) }
{
    let s = w.state;
    let at = s.at;
    if at == code[0] as usize + j + 1 {
        return true;
    }
    merge_rows::send(rows, code, w);
    false
}

// What has come to an address: nothing, states that cannot be merged, or a way.
#[derive(Clone, Copy)]
pub enum Mark {
    Nothing,
    Unlike,
    Is,
}

#[derive(Clone, Copy)]
pub struct Came {
    pub mark: Mark,
    pub way: Way,
}

// What a row holds, that of the address `at`; where it is no way, `w` stands beside it.
fn found(at: usize, row: &[u64], w: Way) -> Came
    requires { Row row.now }
    ensures by_index { (ns : List ℕ) → came_as ns result.mark result.way ≡ slot_in ns at row.now }
    ensures by_index_2 { (ns : List ℕ) → Held ns result.mark result.way at }
{
    let mark = row[0];
    if mark == 0 {
        return Came {
            mark: Mark::Nothing,
            way: w,
        };
    }
    if mark == 1 {
        let held = merge_rows::take(at, row);
        return Came {
            mark: Mark::Is,
            way: held,
        };
    }
    Came {
        mark: Mark::Unlike,
        way: w,
    }
}

// What has come to the address `at`: what its row holds, and the way `w` if `here` says so.
fn reach(row: &mut [u64], code: &[u32; 5131], at: usize, here: bool, w: Way) -> Came
    requires { Row row.old × Comes (sizes_of code.now) here w at × IsProgram code.now }
    ensures way_value { came_as (sizes_of code.now) result.mark result.way ≡ with (sizes_of code.now) here w (slot_in (sizes_of code.now) at row.old) }
    ensures held { Held (sizes_of code.now) result.mark result.way at }
{
    if !here {
        return found(at, row, w);
    }
    let mark = row[0];
    if mark == 0 {
        return Came {
            mark: Mark::Is,
            way: w,
        };
    }
    merge_rows::join(row, code, w);
    found(at, row, w)
}

// A way after a step at the price `p`, which leaves `state` and `blocks`.
fn paid(w: Way, state: State, blocks: [Cell; 128], p: Price) -> Way
    requires { (w.cycles ≤ most 1025) × (w.words ≤ most 1025) × SmallPrice p }
    ensures { (result.state ≡ state) × (result.blocks ≡ blocks) × (result.cycles ≡ w.cycles + p.cycles) × (result.words ≡ w.words + p.words) }
{
    let cycles = w.cycles + p.cycles;
    let words = w.words + p.words;
    Way {
        state: state,
        blocks: blocks,
        cycles: cycles,
        words: words,
    }
}

// An address more is reached, where the stack's height is `h`.
fn reached(f: Found, h: usize) -> Found
    requires { (f.used ≤ 1025) × (h ≤ 64) }
    ensures { (result.verdict ≡ Ok tt) × (result.used ≡ suc f.used) × (result.cycles ≡ f.cycles) × (result.words ≡ f.words) × (result.depth ≡ max f.depth h) × (result.path ≡ 1) }
{
    let depth = f.depth.max(h as u64);
    Found {
        verdict: Ok(()),
        used: f.used + 1,
        cycles: f.cycles,
        words: f.words,
        depth: depth,
        path: 1,
    }
}

// A way ends in STOP.
fn ended(f: Found, w: Way) -> Found
    ensures { (result.verdict ≡ Ok tt) × (result.used ≡ f.used) × (result.cycles ≡ max f.cycles w.cycles) × (result.words ≡ max f.words w.words) × (result.depth ≡ f.depth) × (result.path ≡ 1) }
{
    let cycles = f.cycles.max(w.cycles);
    let words = f.words.max(w.words);
    Found {
        verdict: Ok(()),
        used: f.used,
        cycles: cycles,
        words: words,
        depth: f.depth,
        path: 1,
    }
}

// A pass so far: its figures, and the way that goes to the next address, if `here` says so.
#[derive(Clone, Copy)]
pub struct Pass {
    pub found: Found,
    pub here: bool,
    pub way: Way,
}

// The way `w`, which is all that has come to the address of row `j`, is carried out there, and the ways of its step are marked in `kept`.
fn carry(code: &[u32; 5131], rows: &mut [u64], kept: &mut [u64], j: usize, f: Found, w: Way) -> Pass
    requires program { IsProgram code.now }
    requires rows { Rows rows.old × Goals kept.old × (j < rows_of code.now) }
    requires formed { (Formed w × Numeric (sizes_of code.now) w) × (w.state.at ≡ first_address_of code.now + j) × (w.cycles ≤ most j) × (w.words ≤ most j) × Figures j f }
    requires by_index { (b : ℕ) → j < b → b < rows_of code.now → Spent (most j) (slot_at (sizes_of code.now) (first_address_of code.now) rows.old b) }
    ensures ready { Ready (sizes_of code.now) (first_address_of code.now) (rows_of code.now) (j + 1) rows.new result }
    ensures moved { (tab : Table) (q : Report) → f ≡ accepted_as q → ((b : ℕ) → j < b → b < rows_of code.now → slot (tab (first_address_of code.now + b)) ≡ slot_at (sizes_of code.now) (first_address_of code.now) rows.old b) → Moved (sizes_of code.now) (first_address_of code.now) (rows_of code.now) (j + 1) (λ rest. carry rest (first_address_of code.now + j) tab q (whole (sizes_of code.now) w.blocks w.state) (spent_of w) (step (program_of code.now) unknown (whole (sizes_of code.now) w.blocks w.state))) (sent (spent_of w) (step (program_of code.now) unknown (whole (sizes_of code.now) w.blocks w.state)) tab) rows.new result }
    ensures keeps { (o : Origins) → Keeps (first_address_of code.now) kept.old o → Keeps (first_address_of code.now) kept.new (marked (spent_of w) (whole (sizes_of code.now) w.blocks w.state) (step (program_of code.now) unknown (whole (sizes_of code.now) w.blocks w.state)) o) }
{
    let s = w.state;
    let b = w.blocks;
    let stepped = machine_step::step(code, cells::unknown(), s, b);
    let next = stepped.next;
    let state = stepped.state;
    let blocks = stepped.blocks;
    merge_origins::depart(kept, code, j, w.cycles, 64 - s.free, next, state.at);
    let g = reached(f, 64 - s.free);
    match next {
        Next::Stuck => Pass {
            found: bound_figures::refused(Refusal::Stuck(s.at), 0),
            here: false,
            way: w,
        },
        Next::Stops(p) => Pass {
            found: ended(g, paid(w, state, blocks, p)),
            here: false,
            way: w,
        },
        Next::Goes(p) => {
            let v = paid(w, state, blocks, p);
            let here = onward(rows, code, j, v);
            Pass {
                found: g,
                here: here,
                way: v,
            }
        }
        Next::Opens(p, place, q) => {
            let taken = paid(w, state.jump(place), blocks, q);
            merge_rows::send(rows, code, taken);
            let v = paid(w, state, blocks, p);
            let here = onward(rows, code, j, v);
            Pass {
                found: g,
                here: here,
                way: v,
            }
        }
    }
}

// The address of row `j`.
fn visit(code: &[u32; 5131], rows: &mut [u64], kept: &mut [u64], j: usize, p: Pass) -> Pass
    requires program { IsProgram code.now × Goals kept.old × (j < rows_of code.now) }
    requires ready { Ready (sizes_of code.now) (first_address_of code.now) (rows_of code.now) j rows.old p }
    ensures ready_2 { Ready (sizes_of code.now) (first_address_of code.now) (rows_of code.now) (j + 1) rows.new result }
    ensures moved { (tab : Table) (q : Report) → p.found ≡ accepted_as q → Agrees (sizes_of code.now) (first_address_of code.now) (rows_of code.now) j tab rows.old p.here p.way → Moved (sizes_of code.now) (first_address_of code.now) (rows_of code.now) (j + 1) (λ rest. visit (step (program_of code.now) unknown) rest (first_address_of code.now + j) tab q (slot (tab (first_address_of code.now + j)))) (sends (step (program_of code.now) unknown) (first_address_of code.now + j) (slot (tab (first_address_of code.now + j))) tab) rows.new result }
    ensures keeps { (tab : Table) (o : Origins) → Agrees (sizes_of code.now) (first_address_of code.now) (rows_of code.now) j tab rows.old p.here p.way → Keeps (first_address_of code.now) kept.old o → Keeps (first_address_of code.now) kept.new (departs (step (program_of code.now) unknown) (first_address_of code.now + j) (slot (tab (first_address_of code.now + j))) o) }
{
    let at = code[0] as usize + j;
    let low = 197 * j;
    let high = low + 197;
    let w = p.way;
    let came = reach(&mut rows[low..high], code, at, p.here, w);
    let v = came.way;
    let f = p.found;
    let mark = came.mark;
    match mark {
        Mark::Nothing => Pass {
            found: f,
            here: false,
            way: v,
        },
        Mark::Unlike => Pass {
            found: bound_figures::refused(Refusal::NoMeeting(at), 0),
            here: false,
            way: v,
        },
        Mark::Is => carry(code, rows, kept, j, f, v),
    }
}

// The rows of the code's addresses are emptied: a row without a mark holds nothing.
fn clear(rows: &mut [u64], code: &[u32; 5131])
    requires { Rows rows.old × IsProgram code.now }
    ensures { Empty (sizes_of code.now) (first_address_of code.now) (rows_of code.now) rows.new }
{
    let count = code[1] as usize + 1;
    for j in 0..count {
        rows[197 * j] = 0;
    }
}

// The merging bound from `start` with `blocks`, by `rows`, of which those of the code's addresses are empty, and in `kept`, where nothing is kept
// yet, the last moves of the costliest ways. Ways over jumps wait in the rows, one for each address up to that after the last; the way from
// the address before is at hand.
fn sweep_by(
    code: &[u32; 5131],
    start: State,
    blocks: [Cell; 128],
    rows: &mut [u64],
    kept: &mut [u64],
) -> Found
    requires program { IsProgram code.now × WellFormed start × (length blocks ≡ 128) × Cellwise Kept (whole (sizes_of code.now) blocks start) (whole (sizes_of code.now) blocks start) }
    requires code_bound { (first_address_of code.now ≤ start.at) × (start.at ≤ first_address_of code.now + lines_in code.now) }
    requires rows { Rows rows.old × Empty (sizes_of code.now) (first_address_of code.now) (rows_of code.now) rows.old }
    requires goals { Goals kept.old × Keeps (first_address_of code.now) kept.old nowhence }
    ensures shows { Shows result (merged (program_of code.now) (whole (sizes_of code.now) blocks start)) }
    ensures figures { Figures 1025 result }
    ensures keeps { (q : Report) → merged (program_of code.now) (whole (sizes_of code.now) blocks start) ≡ accepted q → Keeps (first_address_of code.now) kept.new (beside (step (program_of code.now) unknown) (span (program_of code.now) (whole (sizes_of code.now) blocks start)) start.at (only (whole (sizes_of code.now) blocks start)) nowhence) }
{
    let n = code[1] as usize + 1;
    let from = start.at - code[0] as usize;
    let way = Way {
        state: start,
        blocks: blocks,
        cycles: 0,
        words: 0,
    };
    let nothing = Found {
        verdict: Ok(()),
        used: 0,
        cycles: 0,
        words: 0,
        depth: 0,
        path: 1,
    };
    let mut p = Pass {
        found: nothing,
        here: true,
        way: way,
    };
    for j in from..n {
        p = visit(code, rows, kept, j, p);
        let f = p.found;
        let verdict = f.verdict;
        let Ok(()) = verdict else {
            return f;
        };
    }
    p.found
}

// The merging bound from `start` with `blocks`, and in `kept`, where nothing is kept yet, the last moves of the costliest ways. The rows are
// its own.
pub fn sweep(code: &[u32; 5131], start: State, blocks: [Cell; 128], kept: &mut [u64]) -> Found
    requires program { IsProgram code.now × WellFormed start × (length blocks ≡ 128) × Cellwise Kept (whole (sizes_of code.now) blocks start) (whole (sizes_of code.now) blocks start) }
    requires code_bound { (first_address_of code.now ≤ start.at) × (start.at ≤ first_address_of code.now + lines_in code.now) }
    requires goals { Goals kept.old × Keeps (first_address_of code.now) kept.old nowhence }
    ensures shows { Shows result (merged (program_of code.now) (whole (sizes_of code.now) blocks start)) }
    ensures figures { Figures 1025 result }
    ensures keeps { (q : Report) → merged (program_of code.now) (whole (sizes_of code.now) blocks start) ≡ accepted q → Keeps (first_address_of code.now) kept.new (beside (step (program_of code.now) unknown) (span (program_of code.now) (whole (sizes_of code.now) blocks start)) start.at (only (whole (sizes_of code.now) blocks start)) nowhence) }
{
    let mut rows = [0; 201925];
    sweep_by(code, start, blocks, &mut rows, kept)
}

// The merging bound from `start` with `blocks`.
pub fn merge(code: &[u32; 5131], start: State, blocks: [Cell; 128]) -> Found
    requires program { IsProgram code.now × WellFormed start × (length blocks ≡ 128) × Cellwise Kept (whole (sizes_of code.now) blocks start) (whole (sizes_of code.now) blocks start) }
    requires code_bound { (first_address_of code.now ≤ start.at) × (start.at ≤ first_address_of code.now + lines_in code.now) }
    ensures shows { Shows result (merged (program_of code.now) (whole (sizes_of code.now) blocks start)) }
    ensures figures { Figures 1025 result }
{
    let mut kept = [0; 6156];
    sweep(code, start, blocks, &mut kept)
}

// The same by lent rows, whatever they hold: for one bound after another, since only the rows of the code's addresses are emptied.
pub fn merge_by(code: &[u32; 5131], start: State, blocks: [Cell; 128], rows: &mut [u64]) -> Found
    requires program { IsProgram code.now × WellFormed start × (length blocks ≡ 128) × Cellwise Kept (whole (sizes_of code.now) blocks start) (whole (sizes_of code.now) blocks start) }
    requires code_bound { (first_address_of code.now ≤ start.at) × (start.at ≤ first_address_of code.now + lines_in code.now) }
    requires rows { Rows rows.old }
    ensures shows { Shows result (merged (program_of code.now) (whole (sizes_of code.now) blocks start)) }
    ensures figures { Figures 1025 result }
{
    let mut kept = [0; 6156];
    clear(rows, code);
    sweep_by(code, start, blocks, rows, &mut kept)
}
