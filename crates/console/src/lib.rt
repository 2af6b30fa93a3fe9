// Input and output of the programs. What the bytes mean is in the crates below.
#![tactic(auto)]

ghost use Rattle.std.specs.Prelude.{◌≡◌, ◌⊎◌, length, take, IfSome, IfNone};
ghost use Rattle.std.specs.Io.KnownBytes.{Appends, Consumes, IsAtEnd};
ghost use Rattle.std.specs.Bool.{OnTrue};
ghost use Rattle.io.specs.Counts.{IsPrefixLen};
ghost use Rattle.text_decimals.specs.Decimal.{numeral};
ghost use Rattle.console.specs.HeldGiven.{given};
ghost use Rattle.console.specs.Read.{Whole};
ghost use Rattle.console.specs.Line.{line, Held};
ghost use Rattle.console.specs.Asked.{AcceptsText, AnswersPrefix, AnsweredRead, MayAnswer};
ghost use Rattle.console.specs.AskedTwo.{AcceptsTexts, AnswersPrefixOfTwo, AnsweredReads, MayAnswerTwo};

use refusals::Refusal;
use std::env::Env;
use std::fs::Files;
use std::io::{Read, Write};
use std::{fs, str};

// What was read: how many bytes came, whether that is a whole text, and what the last read answered, -1 where it failed.
#[derive(Clone, Copy)]
pub struct Input {
    pub length: usize,
    pub is_whole: bool,
    pub last: isize,
}

// The number that a word spells, as a number of a routine file is spelt.
pub fn number_of(word: &[u8]) -> Option<u32>
    ensures { result ≡ given (numeral word.now) }
{
    let Some(z) = text_decimals::read_numeral(word) else {
        return None;
    };
    if z < 0 || 4294967295 < z {
        return None;
    }
    Some(z as u32)
}

// Puts an argument of the program at the start of word, and answers its length, 0 for one that is missing, empty or longer.
pub fn argument<E: Env>(rt: &E, i: usize, word: &mut [u8]) -> usize
    ensures { IsPrefixLen result word.new }
{
    match rt.arg(i, word) {
        Ok(n) => n,
        Err(_) => 0,
    }
}

// Opens the file at a path for reading, where it can be. A path that is not UTF-8 names no file.
pub fn open<F: Files>(rt: &F, path: &[u8]) -> Option<F::File> {
    let Ok(path) = str::from_utf8(path) else {
        return None;
    };
    fs::open(rt, path).ok()
}

// Reads to the end, or until text is full. A read that fails ends it, and then the text is not whole.
pub fn read_from<R: Read>(reader: &mut R, text: &mut [u8]) -> Input
    ensures prefix_len { IsPrefixLen result.length text.new }
    ensures whole { Whole result.length result.is_whole result.last text.new }
    ensures bytes { Consumes (R.remaining reader.old) (R.remaining reader.new) (take result.length text.new) }
    ensures end { OnTrue result.is_whole ((result.length ≡ length text.new) ⊎ IsAtEnd (R.remaining reader.new)) }
{
    let mut n = 0;
    let mut last: isize = 0;
    // A while: a read gives as many bytes as it has, and n goes on by those.
    while n < text.len() {
        let Ok(more) = reader.read(&mut text[n..]) else {
            return Input {
                length: n,
                is_whole: false,
                last: -1,
            };
        };
        last = more as isize;
        if more == 0 {
            break;
        }
        n += more;
    }
    Input {
        length: n,
        is_whole: true,
        last: last,
    }
}

// Reads standard input likewise.
pub fn read_text(rt: &HostRuntime, text: &mut [u8]) -> Input
    ensures prefix_len { IsPrefixLen result.length text.new }
    ensures whole { Whole result.length result.is_whole result.last text.new }
{
    let mut input = rt.stdin();
    read_from(&mut input, text)
}

// Writes all of bytes, or stops at the first write that takes nothing or fails.
pub fn write_all<W: Write>(writer: &mut W, bytes: &[u8]) -> bool
    ensures { OnTrue result (Appends (W.contents writer.old) (W.contents writer.new) bytes.now) }
{
    let mut n = 0;
    // A while: a write takes as many bytes as it can, and n goes on by those.
    while n < bytes.len() {
        let Ok(taken) = writer.write(&bytes[n..]) else {
            return false;
        };
        if taken == 0 {
            return false;
        }
        n += taken;
    }
    true
}

// Says on standard error why there is no answer.
pub fn say(rt: &HostRuntime, message: &[u8]) {
    write_all(&mut rt.stderr(), message);
}

// Says on standard error that a read failed: a part of a text is given no answer.
pub fn read_failed(rt: &HostRuntime) {
    say(rt, b"the input could not be read\n");
}

// Writes all of bytes to standard output.
pub fn write(rt: &HostRuntime, bytes: &[u8]) {
    let is_written = write_all(&mut rt.stdout(), bytes);
    if !is_written {
        say(rt, b"the output could not be written\n");
    }
}

// Puts the line of a refusal at the start of bytes, where a report is already, and answers how many bytes are printed.
pub fn put_line(answer: Result<usize, Refusal>, bytes: &mut [u8]) -> usize
    requires { Held answer bytes.old }
    ensures prefix_len { IsPrefixLen result bytes.new }
    ensures bytes_after { take result bytes.new ≡ line answer bytes.old }
{
    match answer {
        Ok(length) => length,
        Err(refusal) => {
            let number = refusals::number(refusal);
            let place = refusals::place(refusal);
            report::put_refusal(bytes, number, place)
        }
    }
}

// Reads a text to its end, or 32,769 bytes of it, one more than a routine file may have, and asks for the answer for them, which is put at
// the start of out. It answers how many bytes are to be printed, and None where a read failed.
pub fn answer_from<R: Read, F: FnOnce(&[u8], &mut [u8]) -> usize>(
    reader: &mut R,
    out: &mut [u8],
    answer: F,
) -> Option<usize>
    requires accepts { AcceptsText F.FnOnce answer (length out.old) }
    requires prefix_len { AnswersPrefix F.FnOnce answer (length out.old) }
    ensures prefix_len { IfSome result (λ n. IsPrefixLen n out.new) }
    ensures answered { IfSome result (λ n. AnsweredRead F.FnOnce answer
        (R.remaining reader.old) (R.remaining reader.new) out.old n out.new) }
    ensures failed { IfNone result (out.new ≡ out.old) }
{
    let mut text = [0u8; 32769];
    let input = read_from(reader, &mut text);
    if !input.is_whole {
        return None;
    }
    Some(answer(&text[..input.length], out))
}

// The same for two texts. The second is read into other, to its end or until other is full, also where a read of the first failed.
pub fn answer_from_two<R: Read, S: Read, F: FnOnce(&[u8], &[u8], &mut [u8]) -> usize>(
    reader: &mut R,
    second: &mut S,
    other: &mut [u8],
    out: &mut [u8],
    answer: F,
) -> Option<usize>
    requires accepts { AcceptsTexts F.FnOnce answer (length out.old) }
    requires prefix_len { AnswersPrefixOfTwo F.FnOnce answer (length out.old) }
    ensures prefix_len { IfSome result (λ n. IsPrefixLen n out.new) }
    ensures answered { IfSome result (λ n. AnsweredReads F.FnOnce answer
        (R.remaining reader.old) (R.remaining reader.new)
        (S.remaining second.old) (S.remaining second.new) (length other.new) out.old n out.new) }
    ensures failed { IfNone result (out.new ≡ out.old) }
{
    let mut text = [0u8; 32769];
    let of_text = read_from(reader, &mut text);
    let of_other = read_from(second, other);
    if !of_text.is_whole || !of_other.is_whole {
        return None;
    }
    let n = of_text.length;
    let m = of_other.length;
    Some(answer(&text[..n], &other[..m], out))
}

// Prints the bytes of an answer, or says that a read failed.
fn print_answer(rt: &HostRuntime, answered: Option<usize>, out: &[u8])
    requires { IfSome answered (λ n. IsPrefixLen n out.now) }
{
    match answered {
        Some(n) => write(rt, &out[..n]),
        None => read_failed(rt),
    }
}

// Reads a text from standard input and prints the answer for it, which is put into out.
pub fn print_for_text<F: FnOnce(&[u8], &mut [u8]) -> usize>(
    rt: &HostRuntime,
    out: &mut [u8],
    answer: F,
)
    requires accepts { AcceptsText F.FnOnce answer (length out.old) }
    requires prefix_len { AnswersPrefix F.FnOnce answer (length out.old) }
    ensures { MayAnswer F.FnOnce answer out.old out.new }
{
    let answered = answer_from(&mut rt.stdin(), out, answer);
    print_answer(rt, answered, out);
}

// The same for the text of the file at a path. Where it cannot be opened, unopened is said.
pub fn print_for_file<F: FnOnce(&[u8], &mut [u8]) -> usize>(
    rt: &HostRuntime,
    path: &[u8],
    unopened: &[u8],
    out: &mut [u8],
    answer: F,
)
    requires accepts { AcceptsText F.FnOnce answer (length out.old) }
    requires prefix_len { AnswersPrefix F.FnOnce answer (length out.old) }
    ensures { MayAnswer F.FnOnce answer out.old out.new }
{
    let Some(mut file) = open(rt, path) else {
        say(rt, unopened);
        return;
    };
    let answered = answer_from(&mut file, out, answer);
    print_answer(rt, answered, out);
}

// The same for a routine file and one beside it, which is read into other. The first two arguments name them: where one is missing, empty
// or too long, usage is said, and where the second file cannot be opened, unopened.
pub fn print_for_files<F: FnOnce(&[u8], &[u8], &mut [u8]) -> usize>(
    rt: &HostRuntime,
    usage: &[u8],
    unopened: &[u8],
    other: &mut [u8],
    out: &mut [u8],
    answer: F,
)
    requires accepts { AcceptsTexts F.FnOnce answer (length out.old) }
    requires prefix_len { AnswersPrefixOfTwo F.FnOnce answer (length out.old) }
    ensures { MayAnswerTwo F.FnOnce answer out.old out.new }
{
    // an argument that is missing, empty or longer has the length 0
    let mut path = [0u8; 4095];
    let named = argument(rt, 1, &mut path);
    let mut second = [0u8; 4095];
    let beside = argument(rt, 2, &mut second);
    if named == 0 || beside == 0 {
        say(rt, usage);
        return;
    }
    let Some(mut routine) = open(rt, &path[..named]) else {
        say(rt, b"the routine file could not be opened\n");
        return;
    };
    let Some(mut file) = open(rt, &second[..beside]) else {
        say(rt, unopened);
        return;
    };
    let answered = answer_from_two(&mut routine, &mut file, other, out, answer);
    print_answer(rt, answered, out);
}
