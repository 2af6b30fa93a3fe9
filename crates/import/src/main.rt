// Reads the compiler's words from the file that the first argument names, and prints the lines of code that they hold, with the
// primitives line that is the second argument, or a refusal.
#![tactic(auto)]

ghost use Rattle.std.specs.Prelude.{◌≡◌, ◌≤◌, length, take};
ghost use Rattle.io.specs.Counts.{IsPrefixLen};
ghost use Rattle.console.specs.Line.{printed};
ghost use Rattle.words_entry.specs.Answers.{import_answer};

use std::env::Env;

// Puts what is printed for words and a primitives line at the start of out, and answers how many bytes it is.
fn answer(words: &[u8], primitives: &[u8], out: &mut [u8]) -> usize
    requires { 128 ≤ length out.old }
    ensures prefix_len { IsPrefixLen result out.new }
    ensures out_after { take result out.new ≡ printed (import_answer words.now primitives.now (length out.old)) }
{
    let answer = words_entry::import(words, primitives, out);
    console::put_line(answer, out)
}

// Prints the answer for the words of the file at a path. The 1,025th instruction, at which words are refused at the latest, is within the
// bytes that are read.
fn import_at(rt: &HostRuntime, path: &[u8], primitives: &[u8]) {
    let mut lines = [0u8; 32768];
    console::print_for_file(
        rt,
        path,
        b"the file of words could not be opened\n",
        &mut lines,
        |words, out| answer(words, primitives, out),
    );
}

fn main(rt: HostRuntime) {
    // an argument that is missing, empty or longer has the length 0
    let mut path = [0u8; 4095];
    let named = console::argument(&rt, 1, &mut path);
    // a line that is empty is given all the same, and refused as an empty text is
    let mut primitives = [0u8; 4095];
    match rt.arg(2, &mut primitives) {
        Ok(listed) if named > 0 => import_at(&rt, &path[..named], &primitives[..listed]),
        _ => console::say(
            &rt,
            b"import WORDS PRIMITIVES: an argument is missing or too long, or WORDS is empty\n",
        ),
    }
}
