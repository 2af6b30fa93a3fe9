// What a line comes to, of cells and numbers alone, so that no state is handed on. The meaning is in specs/.
ghost use Rattle.std.specs.Prelude.{◌≡◌, ◌≤◌};
ghost use Rattle.instructions.specs.HeldColumns.{operation_of};
ghost use Rattle.machine_outcome.specs.HeldOutcome.{outcome};
ghost use Rattle.machine_state.specs.HeldProgram.{sizes_of, IsProgram};
ghost use Rattle.machine_step.specs.HeldEffect.{effect};

use cells::Cell;
use machine_outcome::Outcome;
use machine_state::code::Line;

// What a line comes to, before the state and the blocks are changed: the operation on cells is made, and the field is found.
#[derive(Clone, Copy)]
pub enum Effect {
    // So many entries are dropped, and the accumulator becomes the cell.
    Gives(usize, Cell),
    // The entry becomes the accumulator, which becomes 0.
    Stores,
    // The field at the place becomes the cell, which is popped, and the accumulator 0.
    Sets(usize, Cell),
    // The accumulator becomes the field at the place.
    Gets(usize),
    // The target is the next address.
    Goes,
    // A conditional branch jumps: the target is the next address, and the extra is paid.
    Jumps,
    // Both ways of an unknown branch are open.
    Opens,
    Halts,
    Stuck,
}

// What `line` comes to where a C_CALL gets `answer`, on a stack of the height, with the accumulator and the entry that it looks at.
pub fn effect_of(
    code: &[u32; 5131],
    line: Line,
    answer: Cell,
    height: usize,
    accu: Cell,
    entry: Cell,
) -> Effect
    requires { IsProgram code.now × (line.code ≤ 22) }
    ensures { result ≡ effect (sizes_of code.now) (operation_of line.code) line.operand accu entry (outcome (operation_of line.code) line.operand answer height accu entry) }
{
    let index = machine_outcome::index_of(line.operand);
    let outcome = machine_outcome::outcome_of(line.code, line.operand, answer, height, accu, entry);
    match outcome {
        Outcome::Gives(c) => Effect::Gives(machine_outcome::drops_of(line.code, index), c),
        Outcome::Operates => {
            let given = machine_outcome::operated(line.code, line.operand, accu, entry);
            let Some(c) = given else {
                return Effect::Stuck;
            };
            Effect::Gives(machine_outcome::drops_of(line.code, index), c)
        }
        Outcome::Stores => Effect::Stores,
        Outcome::Sets(c) => {
            let field = machine_state::slot_of(code, accu, index);
            let Some(j) = field else {
                return Effect::Stuck;
            };
            Effect::Sets(j, c)
        }
        Outcome::Gets => {
            let field = machine_state::slot_of(code, accu, index);
            let Some(j) = field else {
                return Effect::Stuck;
            };
            Effect::Gets(j)
        }
        Outcome::Goes => Effect::Goes,
        Outcome::Jumps => Effect::Jumps,
        Outcome::Opens => Effect::Opens,
        Outcome::Halts => Effect::Halts,
        Outcome::Stuck => Effect::Stuck,
    }
}
