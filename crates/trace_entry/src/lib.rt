// The run of a routine file as a card would record it, on texts and lent memory. The meaning is in specs/.
#![tactic(auto)]

ghost use Rattle.std.specs.Prelude.{◌≡◌, ◌++◌, ◌+◌, ◌≤◌, ◌<◌, length, drop};
ghost use Rattle.text_decimals.specs.Memory.{over};
ghost use Rattle.machine_state.specs.HeldProgram.{program_of, sizes_of, IsProgram};
ghost use Rattle.machine_state.specs.HeldState.{WellFormed, whole};
ghost use Rattle.run_loop.specs.HeldContract.{Runnable};
ghost use Rattle.file_reader.specs.HeldRoutine.{Limited};
ghost use Rattle.file_entry.specs.Held.{routine_in};
ghost use Rattle.answers.specs.Answers.{memory, answer_of, report_length, Delivers};
ghost use Rattle.trace_theory.specs.Trace.{trace, entry_text, entries_text, trace_text};
ghost use Rattle.trace_entry.specs.Answers.{trace_routine, trace_answer};
ghost use Rattle.trace_entry.specs.Promises.{TracesRun};
ghost use Rattle.trace_entry.specs.Held.{Records, entry_of, trace_in, Roomy};

use cells::Cell;
use file_check::Reader;
use file_reader::Routine;
use machine_state::State;
use machine_step::Next;
use refusals::Refusal;

// The step that a run is at, as it is recorded: whether it is made, and what it costs; and the run after it, apart from its sums: whether
// STOP was made, how many answers its calls asked for, its state and its blocks.
#[derive(Clone, Copy)]
pub struct Recorded {
    pub made: bool,
    pub stopped: bool,
    pub cycles: u64,
    pub taken: usize,
    pub state: State,
    pub blocks: [Cell; 128],
}

// Makes the step from `state` with `blocks`, where the first `taken` answers are used up.
fn record_step(
    code: &[u32; 5131],
    answers: &[i32],
    taken: usize,
    state: State,
    blocks: [Cell; 128],
) -> Recorded
    requires { IsProgram code.now × WellFormed state × (taken < 1000000) }
    ensures { Records (program_of code.now) (sizes_of code.now) answers.now taken state blocks result }
{
    let answer = run_loop::answer_at(answers, taken);
    let stepped = machine_step::step(code, answer, state, blocks);
    let next = stepped.next;
    let asked = run_loop::taken_after(stepped.calls, taken);
    if let Next::Stops(p) = next {
        return Recorded {
            made: true,
            stopped: true,
            cycles: p.cycles,
            taken: asked,
            state: state,
            blocks: blocks,
        };
    }
    let Next::Goes(p) = next else {
        return Recorded {
            made: false,
            stopped: false,
            cycles: 0,
            taken: taken,
            state: state,
            blocks: blocks,
        };
    };
    let reached = stepped.state;
    let left = stepped.blocks;
    Recorded {
        made: true,
        stopped: false,
        cycles: p.cycles,
        taken: asked,
        state: reached,
        blocks: left,
    }
}

// Puts the line of a step over out from `at` on, and answers where it ends.
fn put_entry(out: &mut [u8], at: usize, address: u64, cycles: u64) -> usize
    requires { at + length (entry_text (entry_of address cycles)) ≤ length out.old }
    ensures value { result ≡ at + length (entry_text (entry_of address cycles)) }
    ensures out_after { out.new ≡ over out.old at (entry_text (entry_of address cycles)) }
{
    let a = text_decimals::put_decimal(out, at, address);
    let b = text_decimals::put(out, a, b" ");
    let c = text_decimals::put_decimal(out, b, cycles);
    text_decimals::put(out, c, b"\n")
}

// Puts the lines of the run of `budget` steps over out from `at` on, and answers where they end.
fn put_entries(
    out: &mut [u8],
    at: usize,
    code: &[u32; 5131],
    start: State,
    initial: [Cell; 128],
    answers: &[i32],
    budget: usize,
) -> usize
    requires program { IsProgram code.now × Runnable start budget }
    requires answers_in_bounds { at + length (entries_text (trace (program_of code.now) budget (whole (sizes_of code.now) initial start) answers.now)) ≤ length out.old }
    ensures value { result ≡ at + length (entries_text (trace (program_of code.now) budget (whole (sizes_of code.now) initial start) answers.now)) }
    ensures out_after { out.new ≡ over out.old at (entries_text (trace (program_of code.now) budget (whole (sizes_of code.now) initial start) answers.now)) }
{
    let mut e = at;
    let mut state = start;
    let mut blocks = initial;
    let mut taken = 0;
    for _ in 0..budget {
        let step = record_step(code, answers, taken, state, blocks);
        if !step.made {
            return e;
        }
        e = put_entry(out, e, state.at as u64, step.cycles);
        if step.stopped {
            return e;
        }
        taken = step.taken;
        state = step.state;
        let reached = step.blocks;
        blocks = reached;
    }
    e
}

// Puts the trace of the routine's run at the start of out, and answers its length.
fn put_trace(routine: Routine, out: &mut [u8]) -> usize
    requires { Limited routine × (length (trace_text (trace_in routine)) ≤ length out.old) }
    ensures value { result ≡ length (trace_text (trace_in routine)) }
    ensures out_after { out.new ≡ trace_text (trace_in routine) ++ drop (length (trace_text (trace_in routine))) out.old }
{
    let code = routine.code;
    let blocks = routine.blocks;
    let start = routine.start;
    let answers = routine.answers;
    let values = answers.values;
    let given = answers.count;
    let e = text_decimals::put(out, 0, b"AT CYCLES\n");
    put_entries(
        out,
        e,
        &code,
        start,
        blocks,
        &values[..given],
        routine.budget,
    )
}

// The trace of a routine's run.
fn trace_routine(routine: Routine, out: &mut [u8]) -> Result<usize, Refusal>
    requires { Limited routine × Roomy (trace_routine (routine_in routine)) (length out.old) }
    ensures value { result ≡ answer_of (trace_routine (routine_in routine)) }
    ensures out_after { out.new ≡ memory (trace_routine (routine_in routine)) out.old }
{
    let ran = routine_figures::ran(routine);
    ran.verdict?;
    Ok(put_trace(routine, out))
}

// The trace of a routine file's run in the lent memory, or a refusal.
pub fn trace(text: &[u8], out: &mut [u8]) -> Result<usize, Refusal>
    ensures value { result ≡ answer_of (trace_answer text.now (length out.old)) }
    ensures out_after { out.new ≡ memory (trace_answer text.now (length out.old)) out.old }
    ensures traces { Delivers (report_length result) out.new (TracesRun text.now) }
{
    file_entry::check(Reader::Run, 32768, out.len(), text)?;
    let routine = file_reader::routine_of(text);
    trace_routine(routine, out)
}
