// Reads a routine file and the text of its cuts from the files that the two arguments name, and prints the report of the bound by cases, or a
// refusal.
#![tactic(auto)]

ghost use Rattle.std.specs.Prelude.{◌≡◌, ◌≤◌, length, take};
ghost use Rattle.io.specs.Counts.{IsPrefixLen};
ghost use Rattle.console.specs.Line.{printed};
ghost use Rattle.split_entry.specs.Answers.{split_answer};

// Puts what is printed for a text and its cuts at the start of out, and answers how many bytes it is.
fn answer(text: &[u8], cuts: &[u8], out: &mut [u8]) -> usize
    requires { 128 ≤ length out.old }
    ensures prefix_len { IsPrefixLen result out.new }
    ensures out_after { take result out.new ≡ printed (split_answer text.now cuts.now (length out.old)) }
{
    let answer = split_entry::split(text, cuts, out);
    console::put_line(answer, out)
}

fn main(rt: HostRuntime) {
    // one byte more than the cuts may have
    let mut cuts = [0u8; 4097];
    let mut report = [0u8; 128];
    console::print_for_files(
        &rt,
        b"split ROUTINE CUTS: an argument is missing, empty or too long\n",
        b"the file of the cuts could not be opened\n",
        &mut cuts,
        &mut report,
        answer,
    );
}
