// A turn of the explorer's loop: what a line comes to, of the registers alone. The meaning is in specs/.
#![tactic(auto)]

ghost use Rattle.std.specs.Prelude.{◌≡◌, cond, ◌<◌, ◌≤◌, pos};
ghost use Rattle.cells.specs.Cells.{condition};
ghost use Rattle.instructions.specs.HeldColumns.{operation_of};
ghost use Rattle.machine_outcome.specs.HeldOutcome.{drops, operated};
ghost use Rattle.machine_state.specs.HeldProgram.{program_of, sizes_of, of_fetched, IsProgram, Known};
ghost use Rattle.bound_turns.specs.declared.Turn.TheVariants.{Stuck};
ghost use Rattle.bound_turns.specs.HeldTurn.{reached, reading, storing, dropping, altering, branching, getting, setting, turn};

use cells::{Binary, Cell, Condition, Unary};
use instructions::operations;
use machine_outcome::index_of;
use machine_state::code::Line;
use machine_state::registers::Registers;
use numbers::Comparison;

// What a line comes to, before the stack and the blocks are changed. A place of the stack or of the blocks is read by the loop alone, and
// only for the lines that look at it.
#[derive(Clone, Copy)]
pub enum Turn {
    // The next registers.
    Goes(Registers),
    // A conditional branch jumps: the next registers, and the extra is paid.
    Jumps(Registers),
    // The accumulator becomes the place of the stack.
    Reads(usize),
    // The place of the stack becomes the accumulator, which becomes 0.
    Stores(usize),
    // The accumulator becomes what the operation on it and the top entry gives, which is popped.
    Combines,
    // The accumulator becomes the field.
    Gets(usize),
    // The field becomes the top entry, which is popped, and the accumulator 0.
    Sets(usize),
    // Both ways of an unknown branch are open.
    Opens,
    Halts,
    Stuck,
}

// The line at the address of the registers, where the stack has room for its push.
pub fn reachable(code: &[u32; 5131], registers: Registers) -> Option<Line>
    requires { IsProgram code.now }
    ensures result_value { of_fetched result ≡ reached (program_of code.now) registers }
    ensures known { Known result }
{
    let fetched = machine_state::code::fetch(code, registers.at);
    let Some(line) = fetched else {
        return None;
    };
    if line.pushes {
        if registers.free == 0 {
            return None;
        }
    }
    Some(line)
}

// What an operation on the accumulator and the top entry gives: each operation in an arm of its own, where the compiler makes it apart.
pub fn combined(code: u8, accu: Cell, entry: Cell) -> Option<Cell>
    requires { (code ≤ 22) × (drops (operation_of code) 0 ≡ 1) }
    ensures { result ≡ operated (operation_of code) (pos 0) accu entry }
{
    match code {
        operations::ADD => cells::operate2(Binary::Add, accu, entry),
        operations::SUBTRACT => cells::operate2(Binary::Subtract, accu, entry),
        operations::EQUAL => cells::operate2(Binary::Compare(Comparison::Equal), accu, entry),
        operations::UNEQUAL => cells::operate2(Binary::Compare(Comparison::Unequal), accu, entry),
        operations::LESS => cells::operate2(Binary::Compare(Comparison::Less), accu, entry),
        operations::AT_MOST => cells::operate2(Binary::Compare(Comparison::AtMost), accu, entry),
        operations::GREATER => cells::operate2(Binary::Compare(Comparison::Greater), accu, entry),
        _ => cells::operate2(Binary::Compare(Comparison::AtLeast), accu, entry),
    }
}

// Entry `n` is read, where there is one.
fn read_entry(registers: Registers, n: usize) -> Turn
    requires { (registers.free ≤ 64) × (n < 2147483648) }
    ensures { result ≡ reading n registers }
{
    if n < 64 - registers.free {
        return Turn::Reads(registers.free + n);
    }
    Turn::Stuck
}

// Entry `n` is stored, where there is one.
fn store_entry(registers: Registers, n: usize) -> Turn
    requires { (registers.free ≤ 64) × (n < 2147483648) }
    ensures { result ≡ storing n registers }
{
    if n < 64 - registers.free {
        return Turn::Stores(registers.free + n);
    }
    Turn::Stuck
}

// `n` entries are dropped, where there are so many, and `c` is the accumulator.
fn drop_entries(registers: Registers, n: usize, c: Cell) -> Turn
    requires { (registers.free ≤ 64) × (registers.at < 65536) }
    ensures { result ≡ dropping n c registers }
{
    if n <= 64 - registers.free {
        return Turn::Goes(registers.pop(n).load(c).advance());
    }
    Turn::Stuck
}

// The accumulator becomes what an operation on it gave.
fn alter(registers: Registers, given: Option<Cell>) -> Turn
    requires { registers.at < 65536 }
    ensures { result ≡ altering registers given }
{
    let Some(c) = given else {
        return Turn::Stuck;
    };
    Turn::Goes(registers.load(c).advance())
}

// A conditional branch to `n` on the accumulator, that jumps on non-zero, or on zero.
fn branch_on(registers: Registers, n: usize, zero: bool) -> Turn
    requires { registers.at < 65536 }
    ensures { result ≡ branching zero n registers (condition registers.accu) }
{
    let tested = cells::condition_of(registers.accu);
    let Some(x) = tested else {
        return Turn::Stuck;
    };
    match x {
        Condition::IsZero => {
            if zero {
                Turn::Jumps(registers.jump(n))
            } else {
                Turn::Goes(registers.advance())
            }
        }
        Condition::IsNonzero => {
            if zero {
                Turn::Goes(registers.advance())
            } else {
                Turn::Jumps(registers.jump(n))
            }
        }
        Condition::IsUnknown => Turn::Opens,
    }
}

// A field is got, where it is there.
fn get_field(field: Option<usize>) -> Turn
    ensures { result ≡ getting field }
{
    let Some(j) = field else {
        return Turn::Stuck;
    };
    Turn::Gets(j)
}

// A field is set, where it is there.
fn set_field(field: Option<usize>) -> Turn
    ensures { result ≡ setting field }
{
    let Some(j) = field else {
        return Turn::Stuck;
    };
    Turn::Sets(j)
}

// The turn, where the stack has an entry.
fn if_there(there: bool, turn: Turn) -> Turn
    ensures { result ≡ cond there turn Stuck }
{
    if there { turn } else { Turn::Stuck }
}

// What `line` comes to on `registers`, which have made its push.
pub fn turn_of(code: &[u32; 5131], line: Line, registers: Registers) -> Turn
    requires program { IsProgram code.now }
    requires code_bound { (line.code ≤ 22) × ((registers.free ≤ 64) × (registers.at < 65536)) }
    ensures { result ≡ turn (sizes_of code.now) (operation_of line.code) line.operand registers }
{
    let operation = line.code;
    let operand = line.operand;
    let accu = registers.accu;
    match operation {
        operations::NOTHING => Turn::Goes(registers.advance()),
        operations::ACCESS => read_entry(registers, index_of(operand)),
        operations::DROP => drop_entries(registers, index_of(operand), accu),
        operations::ASSIGN => store_entry(registers, index_of(operand)),
        operations::CONSTANT => Turn::Goes(registers.load(cells::exactly(operand)).advance()),
        operations::OFFSET => alter(registers, cells::operate1(Unary::Offset, operand, accu)),
        operations::NEGATE => alter(registers, cells::operate1(Unary::Negate, operand, accu)),
        operations::COMPLEMENT => alter(
            registers,
            cells::operate1(Unary::Complement, operand, accu),
        ),
        operations::GET_FIELD => get_field(machine_state::slot_of(code, accu, index_of(operand))),
        operations::SET_FIELD => {
            let field = machine_state::slot_of(code, accu, index_of(operand));
            if_there(0 < 64 - registers.free, set_field(field))
        }
        operations::BRANCH => Turn::Goes(registers.jump(index_of(operand))),
        operations::BRANCH_IF => branch_on(registers, index_of(operand), false),
        operations::BRANCH_IF_NOT => branch_on(registers, index_of(operand), true),
        operations::CALL => drop_entries(registers, index_of(operand), cells::unknown()),
        operations::STOP => Turn::Halts,
        _ => if_there(0 < 64 - registers.free, Turn::Combines),
    }
}
