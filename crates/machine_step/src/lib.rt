// One step of the machine, by value: "A step takes the machine's state and hands back the next one." The meaning is in specs/.
#![tactic(auto)]

ghost use Rattle.std.specs.Prelude.{◌≡◌, ◌<◌, pos, get_or};
ghost use Rattle.cells.specs.Cells.{range};
ghost use Rattle.machine.specs.Machine.{with_extra, step, takes_answer};
ghost use Rattle.machine_state.specs.HeldProgram.{program_of, sizes_of, line_of, IsProgram};
ghost use Rattle.machine_state.specs.HeldState.{WellFormed, whole};
ghost use Rattle.machine_step.specs.HeldStep.{of_price, of_next, SmallPrice, Small, Differs, keeping, setting_field};

use cells::Cell;
use effects::Effect;
use machine_state::State;
use machine_state::code::Line;

pub mod effects;

// What a way costs.
#[derive(Clone, Copy)]
pub struct Price {
    pub cycles: u64,
    pub words: u64,
}

// What comes next: nothing where the step is stuck; STOP; one way; or the two ways of an unknown branch, of which the one not taken is at
// the state's address and the one taken at the address given.
#[derive(Clone, Copy)]
pub enum Next {
    Stuck,
    Stops(Price),
    Goes(Price),
    Opens(Price, usize, Price),
}

// What a step gives: what comes next, with the state and the blocks, whether an answer was taken, and how the blocks differ. The blocks come
// first: they are then copied once, where a part written before them would have the compiler copy them twice.
#[derive(Clone, Copy)]
pub struct Stepped {
    pub blocks: [Cell; 128],
    pub state: State,
    pub next: Next,
    pub calls: bool,
    pub change: Option<(usize, Cell)>,
}

// What a line costs.
fn price_of(line: Line) -> Price
    ensures { (of_price result ≡ (line_of line).price) × SmallPrice result }
{
    Price {
        cycles: line.cycles as u64,
        words: line.words as u64,
    }
}

// What a conditional branch costs where it jumps.
fn jump_price(line: Line) -> Price
    ensures { (of_price result ≡ with_extra line.extra (line_of line).price) × SmallPrice result }
{
    Price {
        cycles: (line.cycles as u64) + (line.extra as u64),
        words: line.words as u64,
    }
}

// The field at the place `j`.
fn field_of(blocks: [Cell; 128], j: usize) -> Cell
    requires { j < 128 }
    ensures { result ≡ get_or blocks j (range (pos 0) 0) }
{
    blocks[j]
}

// A step that leaves the blocks.
fn keep(next: Next, calls: bool, state: State, blocks: [Cell; 128]) -> Stepped
    ensures { result ≡ keeping next calls state blocks }
{
    Stepped {
        blocks: blocks,
        state: state,
        next: next,
        calls: calls,
        change: None,
    }
}

// A step that sets the field at the place `j` to `c`.
fn set_field(
    next: Next,
    calls: bool,
    j: usize,
    c: Cell,
    state: State,
    mut blocks: [Cell; 128],
) -> Stepped
    requires { j < 128 }
    ensures { result ≡ setting_field next calls j c state blocks }
{
    blocks[j] = c;
    Stepped {
        blocks: blocks,
        state: state,
        next: next,
        calls: calls,
        change: Some((j, c)),
    }
}

// One step from `state` with `blocks`, where a C_CALL gets `answer`.
pub fn step(code: &[u32; 5131], answer: Cell, mut state: State, blocks: [Cell; 128]) -> Stepped
    requires { IsProgram code.now × WellFormed state }
    ensures state_value { of_next result.next (whole (sizes_of code.now) result.blocks result.state) ≡ step (program_of code.now) answer (whole (sizes_of code.now) blocks state) }
    ensures calls_value { result.calls ≡ takes_answer (program_of code.now) (whole (sizes_of code.now) blocks state) }
    ensures well_formed { WellFormed result.state × Small result.next }
    ensures differs { Differs result.change blocks result.blocks }
{
    let Some(line) = machine_state::code::fetch(code, state.at) else {
        return keep(Next::Stuck, false, state, blocks);
    };
    let calls = line.calls;
    if line.pushes {
        if state.free == 0 {
            return keep(Next::Stuck, calls, state, blocks);
        }
        state = state.push();
    }
    let index = machine_outcome::index_of(line.operand);
    let place = machine_outcome::entry_place(line.code, index, state.free);
    let price = price_of(line);
    let jumped = jump_price(line);
    let mut next = Next::Goes(price);
    let entry = state.stack[place];
    match effects::effect_of(code, line, answer, 64 - state.free, state.accu, entry) {
        Effect::Gives(drops, c) => {
            state = state.pop(drops).load(c).advance();
            return keep(next, calls, state, blocks);
        }
        Effect::Stores => state = state.store(index).advance(),
        Effect::Sets(j, c) => {
            state = state.pop(1).load(cells::exactly(0)).advance();
            return set_field(next, calls, j, c, state, blocks);
        }
        Effect::Gets(j) => state = state.load(field_of(blocks, j)).advance(),
        Effect::Goes => state = state.jump(index),
        Effect::Jumps => {
            state = state.jump(index);
            next = Next::Goes(jumped);
        }
        Effect::Opens => {
            state = state.advance();
            next = Next::Opens(price, index, jumped);
        }
        Effect::Halts => next = Next::Stops(price),
        Effect::Stuck => next = Next::Stuck,
    }
    keep(next, calls, state, blocks)
}
