// The bound by cases on texts and lent memory. The meaning is in specs/.
#![tactic(auto)]

ghost use Rattle.std.specs.Prelude.{◌≡◌, ◌≤◌, length};
ghost use Rattle.text.specs.Text.{lines};
ghost use Rattle.file_format.specs.Routine.{routine_of};
ghost use Rattle.file_reader.specs.HeldRoutine.{Limited};
ghost use Rattle.answers.specs.Answers.{memory, answer_of, report_length, Delivers};
ghost use Rattle.file_entry.specs.Held.{routine_in};
ghost use Rattle.report.specs.Held.{Printable};
ghost use Rattle.report_theory.specs.Listed.{Refuses, ListedAlone};
ghost use Rattle.split_entry.specs.Answers.{cuts_checked, cases_routine, split_routine, split_answer};
ghost use Rattle.split_entry.specs.Promises.{SafeSplit, ExactSplit, BelowMerge, MoreCuts, MonotoneSplit};
ghost use Rattle.split_entry.specs.Listed.{CasesRefused};
ghost use Rattle.split_entry.specs.Held.{Read};

use file_check::Reader;
use file_format::{Role, Section};
use file_reader::Routine;
use refusals::Refusal;

// The refusal of the cuts, beside the names of the cells of a routine file.
pub fn check(text: &[u8], cuts: &[u8]) -> Result<(), Refusal>
    ensures { result ≡ cuts_checked text.now cuts.now }
{
    let cells = file_layout::text_of(text, Role::Names(Section::Cells));
    let fields = file_layout::text_of(text, Role::Names(Section::Fields));
    split_cuts::check_cuts(cuts, cells, fields)
}

// The answer to a routine and to an accepted text of cuts.
fn split_routine(routine: Routine, cuts: &[u8], out: &mut [u8]) -> Result<usize, Refusal>
    requires limited { Limited routine × (length (lines cuts.now) ≤ 17) }
    requires printable { Printable (cases_routine cuts.now (routine_in routine)) routine.tick (length out.old) }
    ensures value { result ≡ answer_of (cases_routine cuts.now (routine_in routine)) }
    ensures out_after { out.new ≡ memory (cases_routine cuts.now (routine_in routine)) out.old }
{
    let tick = routine.tick;
    let found = split_figures::bounded(routine, cuts);
    report::put_found(found, tick, out)
}

// The answer to a routine file that passes and to the text of its cuts.
fn split_passing(text: &[u8], cuts: &[u8], out: &mut [u8]) -> Result<usize, Refusal>
    requires { Read text.now × (128 ≤ length out.old) }
    ensures value { result ≡ answer_of (split_routine text.now cuts.now (routine_of (lines text.now))) }
    ensures out_after { out.new ≡ memory (split_routine text.now cuts.now (routine_of (lines text.now))) out.old }
{
    check(text, cuts)?;
    let routine = file_reader::routine_of(text);
    split_routine(routine, cuts, out)
}

// The bound by cases of a routine file: the report in the lent memory, or a refusal.
pub fn split(text: &[u8], cuts: &[u8], out: &mut [u8]) -> Result<usize, Refusal>
    ensures value { result ≡ answer_of (split_answer text.now cuts.now (length out.old)) }
    ensures out_after { out.new ≡ memory (split_answer text.now cuts.now (length out.old)) out.old }
    ensures safe { Delivers (report_length result) out.new (SafeSplit text.now cuts.now) }
    ensures exact { Delivers (report_length result) out.new (ExactSplit text.now cuts.now) }
    ensures below { Delivers (report_length result) out.new (BelowMerge text.now cuts.now) }
    ensures more { Delivers (report_length result) out.new (MoreCuts text.now cuts.now) }
    ensures monotone { Delivers (report_length result) out.new (MonotoneSplit text.now cuts.now) }
    ensures listed { ListedAlone (Refuses result) (CasesRefused text.now cuts.now (length out.old)) }
{
    file_entry::check(Reader::Bound, 128, out.len(), text)?;
    split_passing(text, cuts, out)
}
