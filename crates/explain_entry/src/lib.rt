// The explanation on texts and lent memory: the steps of the worst path. The meaning is in specs/.
#![tactic(auto)]

ghost use Rattle.std.specs.Prelude.{◌≡◌, ◌++◌, ◌+◌, ◌≤◌, length, drop};
ghost use Rattle.text.specs.Text.{lines};
ghost use Rattle.text_decimals.specs.Memory.{over};
ghost use Rattle.file_reader.specs.HeldRoutine.{Limited};
ghost use Rattle.file_entry.specs.Held.{routine_in};
ghost use Rattle.answers.specs.Answers.{memory, answer_of};
ghost use Rattle.explain_entry.specs.Answers.{explain_routine, explain_answer};
ghost use Rattle.explain_entry.specs.Held.{walk_in, text_in, Printable};

use bound_figures::Found;
use file_check::Reader;
use file_reader::Routine;
use refusals::Refusal;

// Puts the lines of the routine's walk along `path` over out from `at` on, and answers where they end.
fn put_steps(routine: Routine, path: u64, body: &[u8], out: &mut [u8], at: usize) -> usize
    requires { Limited routine × (at + length (walk_in (lines body.now) routine path) ≤ length out.old) }
    ensures value { result ≡ at + length (walk_in (lines body.now) routine path) }
    ensures out_after { out.new ≡ over out.old at (walk_in (lines body.now) routine path) }
{
    let code = routine.code;
    let blocks = routine.blocks;
    let start = routine.start;
    explain_lines::put_walk(out, at, body, &code, start, blocks, path)
}

// Puts the report, the line of names and the lines of the steps at the start of out, and answers their length.
fn put_explanation(out: &mut [u8], body: &[u8], routine: Routine, found: Found) -> usize
    requires { Limited routine × (1 ≤ routine.tick) × (routine.tick ≤ 4000000000) × (found.cycles ≤ 8589934592000000) × (length (text_in (lines body.now) routine found) ≤ length out.old) }
    ensures value { result ≡ length (text_in (lines body.now) routine found) }
    ensures out_after { out.new ≡ text_in (lines body.now) routine found ++ drop (length (text_in (lines body.now) routine found)) out.old }
{
    let tick = routine.tick;
    let steps = found.used as u64;
    let a = report::put_bound(
        out,
        tick,
        found.cycles,
        found.words,
        found.depth,
        steps,
        found.path,
    );
    let b = text_decimals::put(out, a, b"AT OP ARG CYCLES WORDS DEPTH WAY\n");
    put_steps(routine, found.path, body, out, b)
}

// The explanation of a routine, whose code lines are those of body.
fn explain_routine(body: &[u8], routine: Routine, out: &mut [u8]) -> Result<usize, Refusal>
    requires { Limited routine × Printable (lines body.now) routine (length out.old) }
    ensures value { result ≡ answer_of (explain_routine (lines body.now) (routine_in routine)) }
    ensures out_after { out.new ≡ memory (explain_routine (lines body.now) (routine_in routine)) out.old }
{
    let found = routine_figures::explored(routine);
    found.verdict?;
    Ok(put_explanation(out, body, routine, found))
}

// The explanation of a routine file: the report and the steps of its worst path in the lent memory, or a refusal.
pub fn explain(text: &[u8], out: &mut [u8]) -> Result<usize, Refusal>
    ensures value { result ≡ answer_of (explain_answer text.now (length out.old)) }
    ensures out_after { out.new ≡ memory (explain_answer text.now (length out.old)) out.old }
{
    file_entry::check(Reader::Bound, 65536, out.len(), text)?;
    let routine = file_reader::routine_of(text);
    let body = file_layout::body_of(text);
    explain_routine(body, routine, out)
}
