// The explorer: every way of a routine, under a budget of steps. The meaning is in specs/.
#![tactic(auto)]

ghost use Rattle.std.specs.Prelude.{◌≡◌, ◌<◌};
ghost use Rattle.refusals.specs.declared.Refusal.TheVariants.{Stuck};
ghost use Rattle.bound_figures.specs.HeldFigures.{refused_as};
ghost use Rattle.machine_state.specs.HeldRegisters.{with_stack};
ghost use Rattle.machine_state.specs.HeldState.{whole};
ghost use Rattle.machine_state.specs.HeldProgram.{program_of, sizes_of, IsProgram};
ghost use Rattle.bound_explorer.specs.HeldContract.{Explorable, Explores, SafeUnder, ExactFor, Bounded};
ghost use Rattle.bound_explorer.specs.HeldWays.{WaysExplored};

use bound_figures::{Found, both};
use bound_turns::Turn;
use cells::Cell;
use machine_state::State;
use machine_state::code::Line;
use machine_state::registers::Registers;
use refusals::Refusal;

// What the two ways of a branch come to.
#[derive(Clone, Copy)]
pub struct Ways {
    pub untaken: Found,
    pub taken: Found,
}

// The step at the address of the registers is not made, as a push on a full stack: the last of those walked.
fn stuck(registers: Registers, walked: usize) -> Found
    ensures { result ≡ refused_as (Stuck registers.at) walked }
{
    bound_figures::refused(Refusal::Stuck(registers.at), walked)
}

// Both ways of the unknown branch `line`; none of them where no opening is left, and not the one taken where the other is refused.
#[cycle(branch_explore_walk)]
fn branch(
    code: &[u32; 5131],
    line: Line,
    registers: Registers,
    stack: [Cell; 64],
    blocks: [Cell; 128],
    openings: usize,
    left: usize,
) -> Ways
    requires program { IsProgram code.now }
    requires explorable { Explorable (with_stack registers stack) openings left × (registers.at < 65536) }
    ensures { WaysExplored (program_of code.now) (sizes_of code.now) line blocks (with_stack registers stack) openings left result }
{
    if openings == 0 {
        let over = bound_figures::refused(Refusal::Openings(registers.at), 0);
        return Ways {
            untaken: over,
            taken: over,
        };
    }
    let mut state = State::of(registers, stack).advance();
    let untaken = explore(code, state, blocks, openings - 1, left);
    let verdict = untaken.verdict;
    if let Err(refusal) = verdict {
        let taken = bound_figures::refused(refusal, 0);
        return Ways {
            untaken: untaken,
            taken: taken,
        };
    }
    let rest = left - untaken.used;
    let target = machine_outcome::index_of(line.operand);
    state = state.jump(target);
    let taken = explore(code, state, blocks, openings - 1, rest);
    Ways {
        untaken: untaken,
        taken: taken,
    }
}

// Every way from `registers` with `stack`: a loop of steps up to an unknown branch. The cells of the stack and of the blocks are written in
// place, where a method would copy the array; the registers stand beside them. The loop is a while: the steps left are a field of the tally,
// which each step lowers as it adds its price, and a for would count them a second time.
#[cycle(branch_explore_walk)]
fn walk(
    code: &[u32; 5131],
    mut registers: Registers,
    mut stack: [Cell; 64],
    mut blocks: [Cell; 128],
    openings: usize,
    budget: usize,
) -> Found
    requires program { IsProgram code.now }
    requires explorable { Explorable (with_stack registers stack) openings budget }
    ensures explores { Explores (program_of code.now) (sizes_of code.now) blocks (with_stack registers stack) openings budget result }
    ensures bounded { Bounded openings budget result }
{
    let mut tally = bound_figures::nothing(budget);
    while 0 < tally.left {
        let Some(line) = bound_turns::reachable(code, registers) else {
            return stuck(registers, budget - tally.left + 1);
        };
        tally = bound_figures::more(tally, line.cycles, line.words, 64 - registers.free);
        if line.pushes {
            registers = registers.push();
            stack[registers.top()] = cells::same(registers.accu);
        }
        let top = registers.top();
        match bound_turns::turn_of(code, line, registers) {
            Turn::Goes(next) => registers = next,
            Turn::Jumps(next) => {
                tally = bound_figures::jumped(tally, line.extra);
                registers = next;
            }
            Turn::Reads(entry) => registers = registers.load(stack[entry]).advance(),
            Turn::Stores(entry) => {
                stack[entry] = cells::same(registers.accu);
                registers = registers.store().advance();
            }
            Turn::Combines => match bound_turns::combined(line.code, registers.accu, stack[top]) {
                Some(c) => registers = registers.pop(1).load(c).advance(),
                None => return stuck(registers, budget - tally.left),
            },
            Turn::Gets(field) => registers = registers.load(blocks[field]).advance(),
            Turn::Sets(field) => {
                blocks[field] = cells::same(stack[top]);
                registers = registers.pop(1).store().advance();
            }
            Turn::Opens => {
                let w = branch(code, line, registers, stack, blocks, openings, tally.left);
                return both(tally, budget - tally.left, w.untaken, line.extra, w.taken);
            }
            Turn::Halts => return bound_figures::finished(tally, budget - tally.left),
            Turn::Stuck => return stuck(registers, budget - tally.left),
        }
    }
    bound_figures::refused(Refusal::Spent(registers.at), budget)
}

// Every way from `start`: it is taken apart into its registers and its stack for the loop, and put together again for each way of an unknown
// branch, where the explorer calls itself.
#[cycle(branch_explore_walk)]
pub fn explore(
    code: &[u32; 5131],
    start: State,
    blocks: [Cell; 128],
    openings: usize,
    budget: usize,
) -> Found
    requires program { IsProgram code.now }
    requires explorable { Explorable start openings budget }
    ensures explores { Explores (program_of code.now) (sizes_of code.now) blocks start openings budget result }
    ensures safe { SafeUnder (program_of code.now) openings budget (whole (sizes_of code.now) blocks start) result }
    ensures exact { ExactFor (program_of code.now) openings (whole (sizes_of code.now) blocks start) result }
    ensures bounded { Bounded openings budget result }
{
    let stack = start.stack;
    walk(code, start.registers(), stack, blocks, openings, budget)
}
