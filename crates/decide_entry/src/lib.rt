// Whether a routine fits in its tick, on texts and lent memory. The meaning is in specs/.
#![tactic(auto)]

ghost use Rattle.std.specs.Prelude.{◌≡◌, true, length};
ghost use Rattle.bound_theory.specs.Tree.{bound, refused};
ghost use Rattle.file_reader.specs.HeldRoutine.{Limited};
ghost use Rattle.file_entry.specs.Held.{routine_in};
ghost use Rattle.answers.specs.Answers.{memory, answer_of, report_length, Delivers};
ghost use Rattle.decide_report.specs.Held.{Roomy};
ghost use Rattle.decide_entry.specs.Answers.{for_size, decide_routine, decide_answer};
ghost use Rattle.decide_entry.specs.Promises.{KeepsTick, OverTick, UndecidedTick};

use decide_report::Source;
use file_check::Reader;
use file_reader::Routine;
use refusals::Refusal;

// Whether the first bound has too much to walk.
fn for_size(refusal: Refusal) -> bool
    ensures { result ≡ for_size refusal }
{
    let number = refusals::number(refusal);
    if number == 8 { true } else { number == 9 }
}

// The decision by the merging bound, where the first bound refuses the routine for its size.
fn decide_by_merging(refusal: Refusal, routine: Routine, out: &mut [u8]) -> Result<usize, Refusal>
    requires limited { Limited routine × (bound (routine_in routine).code (routine_in routine).budget (routine_in routine).start ≡ refused refusal) × (for_size refusal ≡ true) }
    requires roomy { Roomy (decide_routine (routine_in routine)) (length out.old) }
    ensures value { result ≡ answer_of (decide_routine (routine_in routine)) }
    ensures out_after { out.new ≡ memory (decide_routine (routine_in routine)) out.old }
{
    let tick = routine.tick;
    let found = routine_figures::swept(routine);
    let verdict = found.verdict;
    match verdict {
        Ok(()) => {
            let n = decide_report::put_decision(out, Source::Merging, tick, found);
            Ok(n)
        }
        Err(_) => Err(refusal),
    }
}

// The decision on a routine.
fn decide_routine(routine: Routine, out: &mut [u8]) -> Result<usize, Refusal>
    requires { Limited routine × Roomy (decide_routine (routine_in routine)) (length out.old) }
    ensures value { result ≡ answer_of (decide_routine (routine_in routine)) }
    ensures out_after { out.new ≡ memory (decide_routine (routine_in routine)) out.old }
{
    let tick = routine.tick;
    let found = routine_figures::explored(routine);
    let verdict = found.verdict;
    match verdict {
        Ok(()) => {
            let n = decide_report::put_decision(out, Source::First, tick, found);
            Ok(n)
        }
        Err(refusal) => {
            if for_size(refusal) {
                decide_by_merging(refusal, routine, out)
            } else {
                Err(refusal)
            }
        }
    }
}

// The decision on a routine file: what is decided, by which bound and with which figures, in the lent memory; or a refusal.
pub fn decide(text: &[u8], out: &mut [u8]) -> Result<usize, Refusal>
    ensures value { result ≡ answer_of (decide_answer text.now (length out.old)) }
    ensures out_after { out.new ≡ memory (decide_answer text.now (length out.old)) out.old }
    ensures keeps { Delivers (report_length result) out.new (KeepsTick text.now) }
    ensures over { Delivers (report_length result) out.new (OverTick text.now) }
    ensures undecided { Delivers (report_length result) out.new (UndecidedTick text.now) }
{
    file_entry::check(Reader::Bound, 128, out.len(), text)?;
    let routine = file_reader::routine_of(text);
    decide_routine(routine, out)
}
