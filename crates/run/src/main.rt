// Reads a routine file from standard input, and prints the report of its run or its refusal.
#![tactic(auto)]

ghost use Rattle.std.specs.Prelude.{◌≡◌, ◌≤◌, length, take};
ghost use Rattle.io.specs.Counts.{IsPrefixLen};
ghost use Rattle.report_theory.specs.Answers.{run_answer};
ghost use Rattle.console.specs.Line.{printed};

// Puts what is printed for a text at the start of out, and answers how many bytes it is.
fn answer(text: &[u8], out: &mut [u8]) -> usize
    requires { 128 ≤ length out.old }
    ensures prefix_len { IsPrefixLen result out.new }
    ensures out_after { take result out.new ≡ printed (run_answer text.now (length out.old)) }
{
    let answer = run_entry::run(text, out);
    console::put_line(answer, out)
}

fn main(rt: HostRuntime) {
    let mut report = [0u8; 128];
    console::print_for_text(&rt, &mut report, answer);
}
