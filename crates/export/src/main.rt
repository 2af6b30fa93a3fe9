// Reads a routine file from standard input, and prints the words of its code or its refusal.
#![tactic(auto)]

ghost use Rattle.std.specs.Prelude.{◌≡◌, ◌≤◌, length, take};
ghost use Rattle.io.specs.Counts.{IsPrefixLen};
ghost use Rattle.console.specs.Line.{printed};
ghost use Rattle.words_entry.specs.Answers.{export_answer};

// Puts what is printed for a text at the start of out, and answers how many bytes it is.
fn answer(text: &[u8], out: &mut [u8]) -> usize
    requires { 128 ≤ length out.old }
    ensures prefix_len { IsPrefixLen result out.new }
    ensures out_after { take result out.new ≡ printed (export_answer text.now (length out.old)) }
{
    let answer = words_entry::export(text, out);
    console::put_line(answer, out)
}

fn main(rt: HostRuntime) {
    let mut words = [0u8; 32768];
    console::print_for_text(&rt, &mut words, answer);
}
