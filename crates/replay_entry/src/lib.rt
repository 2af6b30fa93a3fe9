// The replay on texts and lent memory. The meaning is in specs/.
#![tactic(auto)]

ghost use Rattle.std.specs.Prelude.{◌≡◌, ◌++◌, ◌≤◌, length, drop};
ghost use Rattle.text.specs.Text.{lines};
ghost use Rattle.file_reader.specs.HeldRoutine.{Limited};
ghost use Rattle.replay_trace.specs.Traces.{trace_acceptance};
ghost use Rattle.replay_steps.specs.Held.{of_replayed};
ghost use Rattle.answers.specs.Answers.{of_acceptance, memory, answer_of, report_length, Delivers};
ghost use Rattle.replay_entry.specs.Answers.{outcome_text, replay_answer};
ghost use Rattle.replay_entry.specs.Promises.{ReplayKept};
ghost use Rattle.replay_entry.specs.Held.{outcome_in};

use file_check::Reader;
use file_reader::Routine;
use refusals::Refusal;

// What the replay of an accepted trace says of the routine.
fn followed(routine: Routine, trace: &[u8]) -> Option<usize>
    requires { Limited routine × (length (lines trace.now) ≤ 4097) }
    ensures { of_replayed result ≡ outcome_in routine trace.now }
{
    let code = routine.code;
    let blocks = routine.blocks;
    let start = routine.start;
    let answers = routine.answers;
    let values = answers.values;
    let given = answers.count;
    replay_steps::replay(&code, start, blocks, &values[..given], trace)
}

// Puts what a replay says at the start of out, and answers its length.
fn put_outcome(out: &mut [u8], said: Option<usize>) -> usize
    requires { length (outcome_text (of_replayed said)) ≤ length out.old }
    ensures value { result ≡ length (outcome_text (of_replayed said)) }
    ensures out_after { out.new ≡ outcome_text (of_replayed said) ++ drop (length (outcome_text (of_replayed said))) out.old }
{
    match said {
        None => text_decimals::put(out, 0, b"AGREES\n"),
        Some(n) => {
            let a = text_decimals::put(out, 0, b"DIFFERS ");
            let b = text_decimals::put_decimal(out, a, n as u64);
            text_decimals::put(out, b, b"\n")
        }
    }
}

// The answer of the replay to a routine and a trace.
fn replay_trace(routine: Routine, trace: &[u8], out: &mut [u8]) -> Result<usize, Refusal>
    requires { Limited routine × (128 ≤ length out.old) }
    ensures value { result ≡ answer_of (of_acceptance (outcome_text (outcome_in routine trace.now)) (trace_acceptance trace.now)) }
    ensures out_after { out.new ≡ memory (of_acceptance (outcome_text (outcome_in routine trace.now)) (trace_acceptance trace.now)) out.old }
{
    replay_trace::check_trace(trace)?;
    let said = followed(routine, trace);
    Ok(put_outcome(out, said))
}

// The replay of a card's trace on a routine file: `AGREES` or `DIFFERS` and a line in the lent memory, or a refusal.
pub fn replay(text: &[u8], trace: &[u8], out: &mut [u8]) -> Result<usize, Refusal>
    ensures value { result ≡ answer_of (replay_answer text.now trace.now (length out.old)) }
    ensures out_after { out.new ≡ memory (replay_answer text.now trace.now (length out.old)) out.old }
    ensures kept { Delivers (report_length result) out.new (ReplayKept text.now trace.now) }
{
    file_entry::check(Reader::Run, 128, out.len(), text)?;
    let routine = file_reader::routine_of(text);
    replay_trace(routine, trace, out)
}
