// What an operation comes to, before the state is changed. The meaning is in specs/.
#![tactic(auto)]

ghost use Rattle.std.specs.Prelude.{◌≡◌, true, cond, ◌+◌, ◌<◌, ◌≤◌};
ghost use Rattle.cells.specs.Cells.{condition};
ghost use Rattle.cells.specs.declared.Binary.TheVariants.{Compare};
ghost use Rattle.instructions.specs.declared.Operation.TheVariants.{Combine};
ghost use Rattle.machine.specs.Machine.{index};
ghost use Rattle.instructions.specs.HeldColumns.{operation_of};
ghost use Rattle.machine_outcome.specs.declared.Outcome.TheVariants.{Stuck};
ghost use Rattle.machine_outcome.specs.HeldOutcome.{is_on_cells, operated, branching, outcome, entry_of, drops};

use cells::{Binary, Cell, Condition, Unary};
use instructions::operations;
use numbers::Comparison;

// What an instruction's operands come to, before the state is changed.
#[derive(Clone, Copy)]
pub enum Outcome {
    // The accumulator becomes the cell.
    Gives(Cell),
    // The accumulator becomes what the operation on cells gives.
    Operates,
    // The entry becomes the accumulator, which becomes 0.
    Stores,
    // The field becomes the cell, the accumulator 0.
    Sets(Cell),
    // The accumulator becomes the field.
    Gets,
    // The target is the next address.
    Goes,
    // A conditional branch jumps: the target is the next address, and the extra is paid.
    Jumps,
    // Both ways of an unknown branch are open.
    Opens,
    Halts,
    Stuck,
}

// A conditional branch on the accumulator `a` that jumps on non-zero, or on zero.
fn outcome_branching(a: Cell, zero: bool) -> Outcome
    ensures { result ≡ branching zero a (condition a) }
{
    let tested = cells::condition_of(a);
    let Some(x) = tested else {
        return Outcome::Stuck;
    };
    match x {
        Condition::IsZero => {
            if zero {
                Outcome::Jumps
            } else {
                Outcome::Gives(a)
            }
        }
        Condition::IsNonzero => {
            if zero {
                Outcome::Gives(a)
            } else {
                Outcome::Jumps
            }
        }
        Condition::IsUnknown => Outcome::Opens,
    }
}

// The comparison of an operation's code.
fn comparison_of(code: u8) -> Comparison
    requires { (17 ≤ code) × (code ≤ 22) }
    ensures { Combine (Compare result) ≡ operation_of code }
{
    match code {
        operations::EQUAL => Comparison::Equal,
        operations::UNEQUAL => Comparison::Unequal,
        operations::LESS => Comparison::Less,
        operations::AT_MOST => Comparison::AtMost,
        operations::GREATER => Comparison::Greater,
        _ => Comparison::AtLeast,
    }
}

// The operation on two cells of a code.
fn binary_of(code: u8) -> Binary
    requires { (15 ≤ code) × (code ≤ 22) }
    ensures { Combine result ≡ operation_of code }
{
    match code {
        operations::ADD => Binary::Add,
        operations::SUBTRACT => Binary::Subtract,
        _ => Binary::Compare(comparison_of(code)),
    }
}

// What an operation on the accumulator, or on it and the entry, gives, with the operand.
pub fn operated(code: u8, operand: i32, accu: Cell, entry: Cell) -> Option<Cell>
    requires { (code ≤ 22) × (is_on_cells (operation_of code) ≡ true) }
    ensures { result ≡ operated (operation_of code) operand accu entry }
{
    match code {
        operations::OFFSET => cells::operate1(Unary::Offset, operand, accu),
        operations::NEGATE => cells::operate1(Unary::Negate, operand, accu),
        operations::COMPLEMENT => cells::operate1(Unary::Complement, operand, accu),
        _ => cells::operate2(binary_of(code), accu, entry),
    }
}

// An operand as the number of an entry, a field, an address or a count.
pub fn index_of(i: i32) -> usize
    ensures { (result ≡ index i) × (result < 2147483648) }
{
    if i < 0 {
        return 0;
    }
    i as usize
}

// The outcome, where the entries that it asks for are there.
fn if_there(there: bool, outcome: Outcome) -> Outcome
    ensures { result ≡ cond there outcome Stuck }
{
    if there { outcome } else { Outcome::Stuck }
}

// What the operation of a code comes to, with its operand and the answer that a C_CALL gets, on a stack of the height, with the accumulator
// and the entry that it looks at.
pub fn outcome_of(
    code: u8,
    operand: i32,
    answer: Cell,
    height: usize,
    accu: Cell,
    entry: Cell,
) -> Outcome
    requires { code ≤ 22 }
    ensures { result ≡ outcome (operation_of code) operand answer height accu entry }
{
    let index = index_of(operand);
    match code {
        operations::NOTHING => Outcome::Gives(accu),
        operations::ACCESS => if_there(index < height, Outcome::Gives(entry)),
        operations::DROP => if_there(index <= height, Outcome::Gives(accu)),
        operations::ASSIGN => if_there(index < height, Outcome::Stores),
        operations::CONSTANT => Outcome::Gives(cells::exactly(operand)),
        operations::OFFSET => Outcome::Operates,
        operations::NEGATE => Outcome::Operates,
        operations::COMPLEMENT => Outcome::Operates,
        operations::GET_FIELD => Outcome::Gets,
        operations::SET_FIELD => if_there(0 < height, Outcome::Sets(entry)),
        operations::BRANCH => Outcome::Goes,
        operations::BRANCH_IF => outcome_branching(accu, false),
        operations::BRANCH_IF_NOT => outcome_branching(accu, true),
        operations::CALL => if_there(index <= height, Outcome::Gives(answer)),
        operations::STOP => Outcome::Halts,
        _ => if_there(0 < height, Outcome::Operates),
    }
}

// The entry that the operation of a code looks at, below `free` unused places; the last place where there is none.
pub fn entry_place(code: u8, n: usize, free: usize) -> usize
    requires { (n < 4294967296) × (free ≤ 64) }
    ensures { (result < 64) × (free + entry_of (operation_of code) n < 64 → result ≡ free + entry_of (operation_of code) n) }
{
    let i = if code == operations::ACCESS {
        free + n
    } else {
        free
    };
    if i < 64 { i } else { 63 }
}

// How many entries the operation of a code drops where it gives a cell.
pub fn drops_of(code: u8, n: usize) -> usize
    requires { code ≤ 22 }
    ensures { result ≡ drops (operation_of code) n }
{
    match code {
        operations::DROP | operations::CALL => n,
        operations::ADD..=operations::AT_LEAST => 1,
        _ => 0,
    }
}
