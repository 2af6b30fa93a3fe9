// The bound of a routine file, on texts and lent memory. The meaning is in the specs/ of `report_theory`.
#![tactic(auto)]

ghost use Rattle.std.specs.Prelude.{◌≡◌, length};
ghost use Rattle.file_reader.specs.HeldRoutine.{Limited};
ghost use Rattle.answers.specs.Answers.{memory, answer_of, report_length, Delivers};
ghost use Rattle.file_entry.specs.Held.{routine_in};
ghost use Rattle.report.specs.Held.{Printable};
ghost use Rattle.report_theory.specs.Answers.{bound_routine, bound_answer};
ghost use Rattle.report_theory.specs.Promises.{SafeReport, ExactReport};
ghost use Rattle.report_theory.specs.Listed.{BoundRefused, Refuses, ListedAlone};
ghost use Rattle.report_theory.specs.Refined.{MonotoneReport, KnownReport};

use file_check::Reader;
use file_reader::Routine;
use refusals::Refusal;

// The answer of the bound to a routine.
fn bound_routine(routine: Routine, out: &mut [u8]) -> Result<usize, Refusal>
    requires limited { Limited routine }
    requires printable { Printable (bound_routine (routine_in routine)) routine.tick (length out.old) }
    ensures value { result ≡ answer_of (bound_routine (routine_in routine)) }
    ensures out_after { out.new ≡ memory (bound_routine (routine_in routine)) out.old }
{
    let tick = routine.tick;
    let found = routine_figures::explored(routine);
    report::put_found(found, tick, out)
}

// The bound of a routine file: the report in the lent memory, or a refusal.
pub fn bound(text: &[u8], out: &mut [u8]) -> Result<usize, Refusal>
    ensures value { result ≡ answer_of (bound_answer text.now (length out.old)) }
    ensures out_after { out.new ≡ memory (bound_answer text.now (length out.old)) out.old }
    ensures safe { Delivers (report_length result) out.new (SafeReport text.now) }
    ensures exact { Delivers (report_length result) out.new (ExactReport text.now) }
    ensures monotone { Delivers (report_length result) out.new (MonotoneReport text.now) }
    ensures known { Delivers (report_length result) out.new (KnownReport text.now) }
    ensures listed { ListedAlone (Refuses result) (BoundRefused text.now (length out.old)) }
{
    file_entry::check(Reader::Bound, 128, out.len(), text)?;
    let routine = file_reader::routine_of(text);
    bound_routine(routine, out)
}
