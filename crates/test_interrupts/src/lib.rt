// For the comparison in tests/ only: a run of a routine file, interrupted after a number of steps and bounded afresh. The meaning is in specs/.
#![tactic(auto)]

ghost use Rattle.std.specs.Prelude.{◌≡◌, ◌++◌, ◌≤◌, length, drop};
ghost use Rattle.machine_state.specs.HeldProgram.{program_of, sizes_of, IsProgram};
ghost use Rattle.machine_state.specs.HeldState.{whole};
ghost use Rattle.bound_theory.specs.Tree.{bound};
ghost use Rattle.bound_theory.specs.Run.{begin, after, bounded_afresh};
ghost use Rattle.bound_figures.specs.HeldFigures.{Shows};
ghost use Rattle.run_loop.specs.HeldContract.{Runnable};
ghost use Rattle.bound_explorer.specs.HeldContract.{Explorable};
ghost use Rattle.file_reader.specs.HeldRoutine.{Limited};
ghost use Rattle.answers.specs.Answers.{memory};
ghost use Rattle.file_entry.specs.Held.{routine_in};
ghost use Rattle.test_interrupts.specs.Interrupts.{Tells, Numbered, numbers_of, steps_of, interrupted, interrupt_answer, number_of};

use bound_figures::Found;
use cells::Cell;
use file_check::Reader;
use file_reader::Routine;
use machine_state::State;
use run_loop::Progress;

// The state that a run has reached, bounded afresh.
fn afresh(
    code: &[u32; 5131],
    stopped: bool,
    state: State,
    blocks: [Cell; 128],
    budget: usize,
) -> Found
    requires program { IsProgram code.now }
    requires explorable { Explorable state 32 budget }
    ensures { Shows result (bounded_afresh (bound (program_of code.now) budget) stopped (whole (sizes_of code.now) blocks state)) }
{
    if stopped {
        return bound_figures::finished(bound_figures::nothing(0), 0);
    }
    bound_explorer::explore(code, state, blocks, 32, budget)
}

// What was found, as numbers: 0 and 0, and its figures; or the number and the place of its refusal, and 0 for each figure.
#[derive(Clone, Copy)]
pub struct Told {
    pub number: u64,
    pub place: u64,
    pub cycles: u64,
    pub words: u64,
    pub depth: u64,
    pub used: u64,
    pub path: u64,
}

// The numbers of what was found.
fn told_of(found: Found) -> Told
    ensures { Tells found result }
{
    let verdict = found.verdict;
    let Err(x) = verdict else {
        return Told {
            number: 0,
            place: 0,
            cycles: found.cycles,
            words: found.words,
            depth: found.depth,
            used: found.used as u64,
            path: found.path,
        };
    };
    Told {
        number: refusals::number(x),
        place: refusals::place(x),
        cycles: 0,
        words: 0,
        depth: 0,
        used: 0,
        path: 0,
    }
}

// The numbers of a run so far and of what it was found to come to.
fn numbers_of(r: Progress, found: Found) -> [u64; 13]
    ensures { Numbered r found result }
{
    let state = r.state;
    let stopped = if r.stopped { 1 } else { 0 };
    let told = told_of(found);
    [
        stopped,
        state.at as u64,
        r.cycles,
        r.words,
        r.depth as u64,
        r.steps as u64,
        told.number,
        told.place,
        told.cycles,
        told.words,
        told.depth,
        told.used,
        told.path,
    ]
}

// The run of `n` steps, and its state bounded afresh.
fn interrupt(
    code: &[u32; 5131],
    start: State,
    blocks: [Cell; 128],
    answers: &[i32],
    n: usize,
    budget: usize,
) -> [u64; 13]
    requires program { IsProgram code.now }
    requires runnable { Runnable start n × (budget ≤ 1000000) }
    ensures { result ≡ numbers_of (program_of code.now) budget (after (program_of code.now) n (begin (whole (sizes_of code.now) blocks start) answers.now)) }
{
    let r = run_loop::after(code, start, blocks, answers, n);
    let reached = r.state;
    let written = r.blocks;
    let found = afresh(code, r.stopped, reached, written, budget);
    numbers_of(r, found)
}

// The steps made of `n` that are asked for.
fn steps_of(n: u64) -> usize
    ensures value { result ≡ steps_of n }
    ensures upper_bound { result ≤ 1000000 }
{
    if n < 1000000 {
        return n as usize;
    }
    1000000
}

// A routine, interrupted.
fn interrupted(x: Routine, n: u64) -> [u64; 13]
    requires { Limited x }
    ensures { result ≡ interrupted (routine_in x) n }
{
    let code = x.code;
    let blocks = x.blocks;
    let start = x.start;
    let answers = x.answers;
    let values = answers.values;
    let given = answers.count;
    let steps = steps_of(n);
    interrupt(&code, start, blocks, &values[..given], steps, x.budget)
}

// Puts the numbers at the start of out.
fn put_numbers(out: &mut [u64], numbers: [u64; 13])
    requires { 13 ≤ length out.old }
    ensures { out.new ≡ numbers ++ drop (length numbers) out.old }
{
    out[..13].copy_from_slice(&numbers);
}

// A run of a routine file, interrupted after `n` steps and bounded afresh: its numbers in the lent memory, and 0 or the number of a refusal.
#[unsafe(no_mangle)]
pub extern "C" fn tickbound_test_after(text: &[u8], n: u64, out: &mut [u64]) -> u64
    ensures value { result ≡ number_of (interrupt_answer text.now n (length out.old)) }
    ensures out_after { out.new ≡ memory (interrupt_answer text.now n (length out.old)) out.old }
{
    let verdict = file_entry::check(Reader::Run, 13, out.len(), text);
    match verdict {
        Ok(()) => {
            let x = file_reader::routine_of(text);
            let numbers = interrupted(x, n);
            put_numbers(out, numbers);
            0
        }
        Err(r) => refusals::number(r),
    }
}
