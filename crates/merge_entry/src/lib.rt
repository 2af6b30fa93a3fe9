// The merging bound of a routine file, on texts and lent memory. The meaning is in the specs/ of `report_theory`.
#![tactic(auto)]

ghost use Rattle.std.specs.Prelude.{◌≡◌, length};
ghost use Rattle.file_reader.specs.HeldRoutine.{Limited};
ghost use Rattle.answers.specs.Answers.{memory, answer_of, report_length, Delivers};
ghost use Rattle.file_entry.specs.Held.{routine_in};
ghost use Rattle.report.specs.Held.{Printable};
ghost use Rattle.report_theory.specs.Answers.{merge_routine, merge_answer};
ghost use Rattle.report_theory.specs.Promises.{SafeMerge, ExactMerge, AboveMerge};
ghost use Rattle.report_theory.specs.Listed.{MergeRefused, Refuses, ListedAlone};
ghost use Rattle.report_theory.specs.Refined.{MonotoneMerge, KnownMerge};

use file_check::Reader;
use file_reader::Routine;
use refusals::Refusal;

// The answer of the merging bound to a routine.
fn merge_routine(routine: Routine, out: &mut [u8]) -> Result<usize, Refusal>
    requires limited { Limited routine }
    requires printable { Printable (merge_routine (routine_in routine)) routine.tick (length out.old) }
    ensures value { result ≡ answer_of (merge_routine (routine_in routine)) }
    ensures out_after { out.new ≡ memory (merge_routine (routine_in routine)) out.old }
{
    let tick = routine.tick;
    let found = routine_figures::swept(routine);
    report::put_found(found, tick, out)
}

// The merging bound of a routine file: the report in the lent memory, or a refusal.
pub fn merge(text: &[u8], out: &mut [u8]) -> Result<usize, Refusal>
    ensures value { result ≡ answer_of (merge_answer text.now (length out.old)) }
    ensures out_after { out.new ≡ memory (merge_answer text.now (length out.old)) out.old }
    ensures safe { Delivers (report_length result) out.new (SafeMerge text.now) }
    ensures exact { Delivers (report_length result) out.new (ExactMerge text.now) }
    ensures monotone { Delivers (report_length result) out.new (MonotoneMerge text.now) }
    ensures known { Delivers (report_length result) out.new (KnownMerge text.now) }
    ensures above { Delivers (report_length result) out.new (AboveMerge text.now) }
    ensures listed { ListedAlone (Refuses result) (MergeRefused text.now (length out.old)) }
{
    file_entry::check(Reader::Bound, 128, out.len(), text)?;
    let routine = file_reader::routine_of(text);
    merge_routine(routine, out)
}
