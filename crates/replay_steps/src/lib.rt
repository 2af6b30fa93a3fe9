// The replay of a card's trace on the plain machine. The meaning is in specs/.
#![tactic(auto)]

ghost use Rattle.std.specs.Prelude.{◌≡◌, cond, suc, ◌+◌, ◌≤◌, ◌<◌, length};
ghost use Rattle.text.specs.Text.{is_empty, lines};
ghost use Rattle.machine_state.specs.HeldProgram.{program_of, sizes_of, IsProgram};
ghost use Rattle.machine_state.specs.HeldState.{WellFormed, whole};
ghost use Rattle.replay_trace.specs.Traces.{entries};
ghost use Rattle.replay_steps.specs.Replay.{agreed, differed, replay};
ghost use Rattle.replay_steps.specs.Held.{Holds, of_replayed};

use cells::Cell;
use machine_state::State;
use machine_step::Next;

// Whether a line agrees with the step that a run is at, and the run after that step, apart from its sums: whether STOP was made, how many
// answers its calls asked for, its state and its blocks.
#[derive(Clone, Copy)]
pub struct Held {
    pub agrees: bool,
    pub stopped: bool,
    pub taken: usize,
    pub state: State,
    pub blocks: [Cell; 128],
}

// Holds a line with the address `at` and the cycles `spent` against the step from `state` with `blocks`.
fn follow(
    code: &[u32; 5131],
    answers: &[i32],
    taken: usize,
    state: State,
    blocks: [Cell; 128],
    at: usize,
    spent: u64,
) -> Held
    requires { IsProgram code.now × WellFormed state × (taken < 1000000) }
    ensures { Holds (program_of code.now) (sizes_of code.now) answers.now taken state blocks at spent result }
{
    let answer = run_loop::answer_at(answers, taken);
    let stepped = machine_step::step(code, answer, state, blocks);
    let next = stepped.next;
    let asked = run_loop::taken_after(stepped.calls, taken);
    if let Next::Stops(p) = next {
        return Held {
            agrees: state.at == at && spent <= p.cycles,
            stopped: true,
            taken: asked,
            state: state,
            blocks: blocks,
        };
    }
    let Next::Goes(p) = next else {
        return Held {
            agrees: false,
            stopped: false,
            taken: taken,
            state: state,
            blocks: blocks,
        };
    };
    let reached = stepped.state;
    let left = stepped.blocks;
    Held {
        agrees: state.at == at && spent <= p.cycles,
        stopped: false,
        taken: asked,
        state: reached,
        blocks: left,
    }
}

// What is said where line n made STOP and `rest` follows: "A line after STOP differs".
fn after_stop(n: usize, rest: &[u8]) -> Option<usize>
    requires { n < 5000 }
    ensures { of_replayed result ≡ cond (is_empty (lines rest.now)) agreed (differed (suc n)) }
{
    if rest.len() == 0 {
        return None;
    }
    Some(n + 1)
}

// The replay of an accepted trace from `start` with the blocks `initial`.
pub fn replay(
    code: &[u32; 5131],
    start: State,
    initial: [Cell; 128],
    answers: &[i32],
    trace: &[u8],
) -> Option<usize>
    requires { IsProgram code.now × WellFormed start × (length (lines trace.now) ≤ 4097) }
    ensures { of_replayed result ≡ replay (program_of code.now) (whole (sizes_of code.now) initial start) answers.now (entries trace.now) }
{
    let mut state = start;
    let mut blocks = initial;
    let mut taken = 0;
    let mut rest = text::next_lines(trace);
    let mut line = 2;
    // A while: the lines of a text are met by cutting off the first, and how many there are is known only at its end.
    while 0 < rest.len() {
        let entry = replay_trace::entry_of(text::first_line(rest));
        let held = follow(
            code,
            answers,
            taken,
            state,
            blocks,
            entry.at,
            entry.cycles as u64,
        );
        if !held.agrees {
            return Some(line);
        }
        let next = text::next_lines(rest);
        if held.stopped {
            return after_stop(line, next);
        }
        rest = next;
        taken = held.taken;
        state = held.state;
        let left = held.blocks;
        blocks = left;
        line += 1;
    }
    None
}
