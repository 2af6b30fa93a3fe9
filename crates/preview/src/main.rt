// Reads a routine file from the file that the first argument names, and prints the report or the refusal of its copy that has the third
// argument as the instruction at the address that is the second.
#![tactic(auto)]

ghost use Rattle.std.specs.Prelude.{◌≡◌, ◌≤◌, length, take};
ghost use Rattle.io.specs.Counts.{IsPrefixLen};
ghost use Rattle.preview_entry.specs.Answers.{preview_answer};
ghost use Rattle.console.specs.Line.{printed};

use std::env::{Env, FillError};

// Puts what is printed for a text, an address and an instruction at the start of out, and answers how many bytes it is.
fn answer(text: &[u8], address: u32, instruction: &[u8], out: &mut [u8]) -> usize
    requires { 128 ≤ length out.old }
    ensures prefix_len { IsPrefixLen result out.new }
    ensures out_after { take result out.new ≡ printed (preview_answer text.now address instruction.now (length out.old)) }
{
    let answer = preview_entry::preview(text, address, instruction, out);
    console::put_line(answer, out)
}

// Prints the answer for the routine file at a path and the address that a word spells.
fn preview_at(rt: &HostRuntime, path: &[u8], word: &[u8], instruction: &[u8]) {
    let Some(address) = console::number_of(word) else {
        console::say(
            rt,
            b"preview ROUTINE ADDRESS INSTRUCTION: ADDRESS is no number of 32 bits\n",
        );
        return;
    };
    let mut report = [0u8; 128];
    console::print_for_file(
        rt,
        path,
        b"the routine file could not be opened\n",
        &mut report,
        |text, out| answer(text, address, instruction, out),
    );
}

fn main(rt: HostRuntime) {
    // an argument that is missing, empty or longer has the length 0
    let mut path = [0u8; 4095];
    let named = console::argument(&rt, 1, &mut path);
    let mut digits = [0u8; 10];
    let spelt = console::argument(&rt, 2, &mut digits);
    // one byte more than a copy may have
    let mut instruction = [0u8; 32769];
    match rt.arg(3, &mut instruction) {
        Ok(given) if named > 0 => preview_at(
            &rt,
            &path[..named],
            &digits[..spelt],
            &instruction[..given],
        ),
        // the first bytes of a longer one are there, and make a copy that is too long too
        Err(FillError::TooLong) if named > 0 => {
            preview_at(&rt, &path[..named], &digits[..spelt], &instruction)
        }
        _ => console::say(
            &rt,
            b"preview ROUTINE ADDRESS INSTRUCTION: an argument is missing, empty or too long\n",
        ),
    }
}
