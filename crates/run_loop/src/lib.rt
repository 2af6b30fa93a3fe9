// The plain machine over a list of answers of any length: a loop of steps. The meaning is in specs/.
#![tactic(auto)]

ghost use Rattle.std.specs.Prelude.{◌≡◌, List, ℕ, suc, ◌<◌, ◌≤◌, ℤ, drop};
ghost use Rattle.machine_state.specs.HeldProgram.{program_of, sizes_of, IsProgram};
ghost use Rattle.machine_state.specs.HeldState.{WellFormed, whole};
ghost use Rattle.bound_theory.specs.Run.{begin, answer, remaining, after, judge_run, run};
ghost use Rattle.run_loop.specs.HeldProgress.{of_progress, so_far};
ghost use Rattle.run_loop.specs.HeldContract.{Runnable, verdict_of, SafeFrom, WithinBound};

use cells::Cell;
use machine_state::State;
use machine_step::Next;
use refusals::Refusal;

// A run so far: its state and its blocks, how many answers its calls asked for, its sums, and whether STOP was made.
#[derive(Clone, Copy)]
pub struct Progress {
    pub state: State,
    pub blocks: [Cell; 128],
    pub taken: usize,
    pub cycles: u64,
    pub words: u64,
    pub depth: usize,
    pub steps: usize,
    pub stopped: bool,
}

// What a run comes to, with its figures.
#[derive(Clone, Copy)]
pub struct Ran {
    pub verdict: Result<(), Refusal>,
    pub cycles: u64,
    pub words: u64,
    pub depth: usize,
    pub steps: usize,
}

// The next answer after the first `taken`: 0 once the list is used up.
pub fn answer_at(answers: &[i32], taken: usize) -> Cell
    ensures { result ≡ answer (drop taken answers.now) }
{
    if answers.len() <= taken {
        return cells::exactly(0);
    }
    cells::exactly(answers[taken])
}

// The answers asked for after a step that takes one or none.
pub fn taken_after(calls: bool, taken: usize) -> usize
    requires { taken < 1000000 }
    ensures { ((answers : List ℤ) → drop result answers ≡ remaining calls (drop taken answers)) × (result ≤ suc taken) }
{
    if calls { taken + 1 } else { taken }
}

// The run that has come to this.
fn so_far(
    state: State,
    blocks: [Cell; 128],
    taken: usize,
    cycles: u64,
    words: u64,
    depth: usize,
    steps: usize,
    stopped: bool,
) -> Progress
    ensures { result ≡ so_far state blocks taken cycles words depth steps stopped }
{
    Progress {
        state: state,
        blocks: blocks,
        taken: taken,
        cycles: cycles,
        words: words,
        depth: depth,
        steps: steps,
        stopped: stopped,
    }
}

// The run after `n` steps from `start` with the blocks `initial`.
pub fn after(
    code: &[u32; 5131],
    start: State,
    initial: [Cell; 128],
    answers: &[i32],
    n: usize,
) -> Progress
    requires program { IsProgram code.now }
    requires runnable { Runnable start n }
    ensures result_value { of_progress (sizes_of code.now) answers.now result ≡ after (program_of code.now) n (begin (whole (sizes_of code.now) initial start) answers.now) }
    ensures safe { SafeFrom (program_of code.now) (whole (sizes_of code.now) initial start) answers.now n (of_progress (sizes_of code.now) answers.now result) }
    ensures well_formed { WellFormed result.state }
{
    let mut state = start;
    let mut blocks = initial;
    let mut taken = 0;
    let mut spent: u64 = 0;
    let mut sum: u64 = 0;
    let mut depth = 64 - start.free;
    for made in 0..n {
        let answer = answer_at(answers, taken);
        let stepped = machine_step::step(code, answer, state, blocks);
        let next = stepped.next;
        if let Next::Stops(p) = next {
            taken = taken_after(stepped.calls, taken);
            spent = spent + p.cycles;
            sum = sum + p.words;
            return so_far(state, blocks, taken, spent, sum, depth, made + 1, true);
        }
        let Next::Goes(p) = next else {
            return so_far(state, blocks, taken, spent, sum, depth, made, false);
        };
        taken = taken_after(stepped.calls, taken);
        spent = spent + p.cycles;
        sum = sum + p.words;
        state = stepped.state;
        let h = 64 - state.free;
        if depth < h {
            depth = h;
        }
        // the blocks become those of the step, of which none but the field that was set is written
        let change = stepped.change;
        if let Some((j, c)) = change {
            blocks[j] = c;
        }
    }
    so_far(state, blocks, taken, spent, sum, depth, n, false)
}

// The verdict on the run that `budget` steps leave.
fn judge(r: Progress, budget: usize) -> Ran
    ensures { (ns : List ℕ) (answers : List ℤ) → verdict_of result ≡ judge_run budget (of_progress ns answers r) }
{
    let state = r.state;
    let verdict = if r.stopped {
        Ok(())
    } else if r.steps < budget {
        Err(Refusal::Stuck(state.at))
    } else {
        Err(Refusal::Spent(state.at))
    };
    Ran {
        verdict: verdict,
        cycles: r.cycles,
        words: r.words,
        depth: r.depth,
        steps: r.steps,
    }
}

// The run's verdict after `budget` steps.
pub fn run(
    code: &[u32; 5131],
    start: State,
    initial: [Cell; 128],
    answers: &[i32],
    budget: usize,
) -> Ran
    requires program { IsProgram code.now }
    requires runnable { Runnable start budget }
    ensures result_value { verdict_of result ≡ run (program_of code.now) budget (whole (sizes_of code.now) initial start) answers.now }
    ensures within { WithinBound (program_of code.now) budget (whole (sizes_of code.now) initial start) (verdict_of result) }
{
    let r = after(code, start, initial, answers, budget);
    judge(r, budget)
}
