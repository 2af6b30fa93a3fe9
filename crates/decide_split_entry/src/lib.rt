// Whether a routine fits in its tick by the bound by cases, on texts and lent memory. The meaning is in specs/.
#![tactic(auto)]

ghost use Rattle.std.specs.Prelude.{◌≡◌, ◌≤◌, length};
ghost use Rattle.text.specs.Text.{lines};
ghost use Rattle.file_format.specs.Routine.{routine_of};
ghost use Rattle.file_reader.specs.HeldRoutine.{Limited};
ghost use Rattle.answers.specs.Answers.{memory, answer_of, report_length, Delivers};
ghost use Rattle.file_entry.specs.Held.{routine_in};
ghost use Rattle.decide_report.specs.Held.{Roomy};
ghost use Rattle.split_entry.specs.Held.{Read};
ghost use Rattle.decide_split_entry.specs.Answers.{decide_cases, decide_split_routine, decide_split_answer};
ghost use Rattle.decide_split_entry.specs.Promises.{KeepsTickByCases, UndecidedByCases};

use decide_report::Source;
use file_check::Reader;
use file_reader::Routine;
use refusals::Refusal;

// The decision on a routine by the cases of an accepted text of cuts.
fn decide_cases(routine: Routine, cuts: &[u8], out: &mut [u8]) -> Result<usize, Refusal>
    requires limited { Limited routine × (length (lines cuts.now) ≤ 17) }
    requires roomy { Roomy (decide_cases cuts.now (routine_in routine)) (length out.old) }
    ensures value { result ≡ answer_of (decide_cases cuts.now (routine_in routine)) }
    ensures out_after { out.new ≡ memory (decide_cases cuts.now (routine_in routine)) out.old }
{
    let tick = routine.tick;
    let found = split_figures::bounded(routine, cuts);
    found.verdict?;
    Ok(decide_report::put_decision(out, Source::Split, tick, found))
}

// The decision on a routine file that passes, under the text of its cuts.
fn decide_passing(text: &[u8], cuts: &[u8], out: &mut [u8]) -> Result<usize, Refusal>
    requires { Read text.now × (128 ≤ length out.old) }
    ensures value { result ≡ answer_of (decide_split_routine text.now cuts.now (routine_of (lines text.now))) }
    ensures out_after { out.new ≡ memory (decide_split_routine text.now cuts.now (routine_of (lines text.now))) out.old }
{
    split_entry::check(text, cuts)?;
    let routine = file_reader::routine_of(text);
    decide_cases(routine, cuts, out)
}

// The decision on a routine file by the bound by cases: what is decided and with which figures, in the lent memory; or a refusal.
pub fn decide_split(text: &[u8], cuts: &[u8], out: &mut [u8]) -> Result<usize, Refusal>
    ensures value { result ≡ answer_of (decide_split_answer text.now cuts.now (length out.old)) }
    ensures out_after { out.new ≡ memory (decide_split_answer text.now cuts.now (length out.old)) out.old }
    ensures keeps { Delivers (report_length result) out.new (KeepsTickByCases text.now cuts.now) }
    ensures undecided { Delivers (report_length result) out.new (UndecidedByCases text.now cuts.now) }
{
    file_entry::check(Reader::Bound, 128, out.len(), text)?;
    decide_passing(text, cuts, out)
}
