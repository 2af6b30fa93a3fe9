// The run of a routine file, on texts and lent memory. The meaning is in the specs/ of `report_theory`.
#![tactic(auto)]

ghost use Rattle.std.specs.Prelude.{◌≡◌, length};
ghost use Rattle.file_reader.specs.HeldRoutine.{Limited};
ghost use Rattle.answers.specs.Answers.{memory, answer_of, report_length, Delivers};
ghost use Rattle.file_entry.specs.Held.{routine_in};
ghost use Rattle.report.specs.Held.{Printable};
ghost use Rattle.report_theory.specs.Answers.{run_routine, run_answer};
ghost use Rattle.report_theory.specs.Promises.{WithinReport, RunAccepted};
ghost use Rattle.report_theory.specs.Listed.{RunRefused, Refuses, ListedAlone};

use file_check::Reader;
use file_reader::Routine;
use refusals::Refusal;

// The answer of the run to a routine.
fn run_routine(routine: Routine, out: &mut [u8]) -> Result<usize, Refusal>
    requires limited { Limited routine }
    requires printable { Printable (run_routine (routine_in routine)) routine.tick (length out.old) }
    ensures value { result ≡ answer_of (run_routine (routine_in routine)) }
    ensures out_after { out.new ≡ memory (run_routine (routine_in routine)) out.old }
{
    let ran = routine_figures::ran(routine);
    let steps = ran.steps as u64;
    let depth = ran.depth as u64;
    ran.verdict?;
    Ok(report::put_run(out, ran.cycles, ran.words, depth, steps))
}

// The run of a routine file: the report in the lent memory, or a refusal.
pub fn run(text: &[u8], out: &mut [u8]) -> Result<usize, Refusal>
    ensures value { result ≡ answer_of (run_answer text.now (length out.old)) }
    ensures out_after { out.new ≡ memory (run_answer text.now (length out.old)) out.old }
    ensures within { Delivers (report_length result) out.new (WithinReport text.now) }
    ensures accepts { RunAccepted text.now (length out.old) (report_length result) }
    ensures listed { ListedAlone (Refuses result) (RunRefused text.now (length out.old)) }
{
    file_entry::check(Reader::Run, 128, out.len(), text)?;
    let routine = file_reader::routine_of(text);
    run_routine(routine, out)
}
