// The explanation of the merging bound on texts and lent memory: a costliest way through the merged states. The meaning is in specs/.
#![tactic(auto)]

ghost use Rattle.std.specs.Prelude.{◌≡◌, ◌++◌, ◌+◌, ◌≤◌, length, drop};
ghost use Rattle.text.specs.Text.{lines};
ghost use Rattle.text_decimals.specs.Memory.{over};
ghost use Rattle.machine_state.specs.HeldProgram.{first_address_of};
ghost use Rattle.file_reader.specs.HeldRoutine.{Limited};
ghost use Rattle.file_entry.specs.Held.{routine_in};
ghost use Rattle.answers.specs.Answers.{memory, answer_of};
ghost use Rattle.merge_origins.specs.HeldOrigins.{Goals, Keeps};
ghost use Rattle.explain_merge_entry.specs.Answers.{explain_merge_routine, explain_merge_answer};
ghost use Rattle.explain_merge_entry.specs.Held.{origins_in, way_in, merge_text_in, MergePrintable};

use bound_figures::Found;
use file_check::Reader;
use file_reader::Routine;
use refusals::Refusal;

// Puts the lines of the routine's costliest way, of which the last moves are kept, over out from `at` on, and answers where they end.
fn put_steps(routine: Routine, kept: &[u64], body: &[u8], out: &mut [u8], at: usize) -> usize
    requires { Limited routine × Goals kept.now × Keeps (first_address_of routine.code) kept.now (origins_in routine) × (at + length (way_in (lines body.now) routine) ≤ length out.old) }
    ensures value { result ≡ at + length (way_in (lines body.now) routine) }
    ensures out_after { out.new ≡ over out.old at (way_in (lines body.now) routine) }
{
    let code = routine.code;
    let most = code[1] as usize + 1;
    let mut goals = [0; 1025];
    let place = explain_merge_walk::way_back(kept, most, &mut goals);
    explain_merge_walk::put_way(out, at, body, kept, &goals[place..])
}

// Puts the report, the line of names and the lines of the way at the start of out, and answers their length.
fn put_explanation(
    out: &mut [u8],
    body: &[u8],
    routine: Routine,
    found: Found,
    kept: &[u64],
) -> usize
    requires { Limited routine × (1 ≤ routine.tick) × (routine.tick ≤ 4000000000) × (found.cycles ≤ 8589934592000000) × (length (merge_text_in (lines body.now) routine found) ≤ length out.old) × Goals kept.now × Keeps (first_address_of routine.code) kept.now (origins_in routine) }
    ensures value { result ≡ length (merge_text_in (lines body.now) routine found) }
    ensures out_after { out.new ≡ merge_text_in (lines body.now) routine found ++ drop (length (merge_text_in (lines body.now) routine found)) out.old }
{
    let tick = routine.tick;
    let steps = found.used as u64;
    let a = report::put_bound(
        out,
        tick,
        found.cycles,
        found.words,
        found.depth,
        steps,
        found.path,
    );
    let b = text_decimals::put(out, a, b"AT OP ARG CYCLES WORDS DEPTH WAY\n");
    put_steps(routine, kept, body, out, b)
}

// The explanation of a routine's merging bound, whose code lines are those of body.
fn explain_routine(body: &[u8], routine: Routine, out: &mut [u8]) -> Result<usize, Refusal>
    requires { Limited routine × MergePrintable (lines body.now) routine (length out.old) }
    ensures value { result ≡ answer_of (explain_merge_routine (lines body.now) (routine_in routine)) }
    ensures out_after { out.new ≡ memory (explain_merge_routine (lines body.now) (routine_in routine)) out.old }
{
    let code = routine.code;
    let blocks = routine.blocks;
    let start = routine.start;
    let mut kept = [0; 6156];
    let found = merge_sweep::sweep(&code, start, blocks, &mut kept);
    found.verdict?;
    Ok(put_explanation(out, body, routine, found, &kept))
}

// The explanation of a routine file's merging bound: its report and its costliest way in the lent memory, or a refusal.
pub fn explain_merge(text: &[u8], out: &mut [u8]) -> Result<usize, Refusal>
    ensures value { result ≡ answer_of (explain_merge_answer text.now (length out.old)) }
    ensures out_after { out.new ≡ memory (explain_merge_answer text.now (length out.old)) out.old }
{
    file_entry::check(Reader::Bound, 65536, out.len(), text)?;
    let routine = file_reader::routine_of(text);
    let body = file_layout::body_of(text);
    explain_routine(body, routine, out)
}
