// Reads a routine file and a card's trace from the files that the two arguments name, and prints what the replay of the trace says, or a
// refusal.
#![tactic(auto)]

ghost use Rattle.std.specs.Prelude.{◌≡◌, ◌≤◌, length, take};
ghost use Rattle.io.specs.Counts.{IsPrefixLen};
ghost use Rattle.console.specs.Line.{printed};
ghost use Rattle.replay_entry.specs.Answers.{replay_answer};

// Puts what is printed for a text and a trace at the start of out, and answers how many bytes it is.
fn answer(text: &[u8], trace: &[u8], out: &mut [u8]) -> usize
    requires { 128 ≤ length out.old }
    ensures prefix_len { IsPrefixLen result out.new }
    ensures out_after { take result out.new ≡ printed (replay_answer text.now trace.now (length out.old)) }
{
    let answer = replay_entry::replay(text, trace, out);
    console::put_line(answer, out)
}

fn main(rt: HostRuntime) {
    // one byte more than a trace may have
    let mut trace = [0u8; 131073];
    let mut report = [0u8; 128];
    console::print_for_files(
        &rt,
        b"replay ROUTINE TRACE: an argument is missing, empty or too long\n",
        b"the file of the trace could not be opened\n",
        &mut trace,
        &mut report,
        answer,
    );
}
