// The cells of a start by their places in the file, and one of them changed. The meaning is in specs/.
#![tactic(auto)]

ghost use Rattle.std.specs.Prelude.{◌≡◌, ◌≤◌, ◌<◌, length};
ghost use Rattle.machine_state.specs.HeldProgram.{sizes_of, IsProgram};
ghost use Rattle.machine_state.specs.HeldState.{view, WellFormed, blocks_of, whole};
ghost use Rattle.nearest_changes.specs.Single.{single};
ghost use Rattle.nearest_changes.specs.Places.{replace_at, position_of};
ghost use Rattle.nearest_changes.specs.Changes.{number_at};
ghost use Rattle.nearest_changes.specs.Held.{of_trial, shift, trial_of, Present};

use cells::{Cell, Value};
use machine_state::State;

// Where a cell of the start stands: ACCU, an entry of the stack, a field of a block.
#[derive(Clone, Copy)]
pub enum Position {
    Accu,
    Entry(usize),
    Field(u8, usize),
}

// A change: which cell, and its new value.
#[derive(Clone, Copy)]
pub struct Change {
    pub place: Position,
    pub value: i32,
}

// The number of a cell that holds one.
fn single_of(c: Cell) -> Option<i32>
    ensures { result ≡ single c }
{
    let value = c.value;
    match value {
        Value::Range(low, more) => {
            if more == 0 {
                return Some(low);
            }
            None
        }
        Value::Handle(_) => None,
    }
}

// Place k of those that a start can have, in the file's order: ACCU, 64 entries, eight blocks of sixteen fields.
pub fn position_of(k: usize) -> Position
    requires { k ≤ 192 }
    ensures { result ≡ position_of k }
{
    if k == 0 {
        return Position::Accu;
    }
    if k < 65 {
        return Position::Entry(k - 1);
    }
    let j = k - 65;
    Position::Field((j / 16) as u8, j % 16)
}

// The number of the cell at p, where the start has one there and it holds one number.
pub fn number_at(code: &[u32; 5131], start: State, blocks: [Cell; 128], p: Position) -> Option<i32>
    requires { IsProgram code.now × WellFormed start }
    ensures { result ≡ number_at p (whole (sizes_of code.now) blocks start) }
{
    match p {
        Position::Accu => single_of(start.accu),
        Position::Entry(n) => {
            let free = start.free;
            if 64 - free <= n {
                return None;
            }
            let entry = free + n;
            single_of(start.stack[entry])
        }
        Position::Field(k, n) => {
            let field = machine_state::slot_of(code, cells::handle(k), n);
            let Some(j) = field else {
                return None;
            };
            single_of(blocks[j])
        }
    }
}

// The start with c in the accumulator or as an entry, where p is one of these.
pub fn with_entry(
    code: &[u32; 5131],
    start: State,
    blocks: [Cell; 128],
    p: Position,
    c: Cell,
) -> State
    requires { IsProgram code.now × WellFormed start × Present p (whole (sizes_of code.now) blocks start) }
    ensures result_value { view result ≡ replace_at p c (view start) }
    ensures well_formed { WellFormed result }
{
    match p {
        Position::Accu => start.load(c),
        Position::Entry(n) => {
            let entry = start.free + n;
            let accu = start.accu;
            let mut stack = start.stack;
            stack[entry] = c;
            State {
                at: start.at,
                accu: accu,
                free: start.free,
                stack: stack,
            }
        }
        Position::Field(_, _) => start,
    }
}

// The blocks with c as one of their fields, where p is a field.
pub fn with_field(
    code: &[u32; 5131],
    start: State,
    mut blocks: [Cell; 128],
    p: Position,
    c: Cell,
) -> [Cell; 128]
    requires { IsProgram code.now × WellFormed start × Present p (whole (sizes_of code.now) blocks start) }
    ensures result_value { blocks_of (sizes_of code.now) result ≡ (replace_at p c (whole (sizes_of code.now) blocks start)).blocks }
    ensures result_len { length result ≡ length blocks }
{
    match p {
        Position::Accu => blocks,
        Position::Entry(_) => blocks,
        Position::Field(k, n) => {
            let field = machine_state::slot_of(code, cells::handle(k), n);
            let Some(j) = field else {
                return blocks;
            };
            blocks[j] = c;
            blocks
        }
    }
}

// v changed by n: downwards in the first of two trials, upwards in the second.
fn shifted(v: i32, n: usize, d: usize) -> i64
    requires { n ≤ 64 }
    ensures { result ≡ shift d n v }
{
    if d == 1 {
        return (v as i64) + (n as i64);
    }
    (v as i64) - (n as i64)
}

// Trial j of a start: by 1, by 2 and on to 64, each of all places in the file's order, each downwards and then upwards. It changes nothing
// where the start has no single number there, and where the value would be outside the range of numbers.
pub fn trial_at(code: &[u32; 5131], start: State, blocks: [Cell; 128], j: usize) -> Option<Change>
    requires { IsProgram code.now × WellFormed start × (j < 24704) }
    ensures { of_trial result ≡ trial_of (whole (sizes_of code.now) blocks start) j }
{
    let p = position_of(j / 2 % 193);
    let held = number_at(code, start, blocks, p);
    let Some(n) = held else {
        return None;
    };
    let amount = j / 2 / 193 + 1;
    let v = shifted(n, amount, j % 2);
    if !numbers::within(numbers::number_range(), v) {
        return None;
    }
    Some(Change {
        place: p,
        value: v as i32,
    })
}
