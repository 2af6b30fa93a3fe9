// Prints the routine file of the seed that is the first argument, or a refusal.
#![tactic(auto)]

ghost use Rattle.std.specs.Prelude.{◌≡◌, ◌≤◌, length, take};
ghost use Rattle.io.specs.Counts.{IsPrefixLen};
ghost use Rattle.console.specs.Line.{printed};
ghost use Rattle.generate_entry.specs.Answers.{generate_answer};

// Puts what is printed for a seed at the start of out, and answers how many bytes it is.
fn answer(seed: u32, out: &mut [u8]) -> usize
    requires { 128 ≤ length out.old }
    ensures prefix_len { IsPrefixLen result out.new }
    ensures out_after { take result out.new ≡ printed (generate_answer seed (length out.old)) }
{
    let answer = generate_entry::generate(seed, out);
    console::put_line(answer, out)
}

fn main(rt: HostRuntime) {
    // an argument that is missing, empty or longer has the length 0
    let mut digits = [0u8; 10];
    let n = console::argument(&rt, 1, &mut digits);
    let seed = console::number_of(&digits[..n]);
    let Some(s) = seed else {
        console::say(&rt, b"generate SEED: SEED is no number of 32 bits\n");
        return;
    };
    let mut file = [0u8; 32768];
    let length = answer(s, &mut file);
    console::write(&rt, &file[..length]);
}
