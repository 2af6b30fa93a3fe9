// The import: the compiler's words to lines of code. The meaning is in specs/ of `words`.
#![tactic(auto)]

ghost use Rattle.std.specs.Prelude.{◌≡◌, ◌+◌, ◌*◌, ◌≤◌, ◌<◌, ◌++◌, length, drop, Ok};
ghost use Rattle.text_decimals.specs.Memory.{over};
ghost use Rattle.instructions.specs.HeldColumns.{Begins, Joined};
ghost use Rattle.file_format.specs.Layout.{list};
ghost use Rattle.words.specs.Words.{words_of};
ghost use Rattle.words.specs.Decoding.{decoded, items};
ghost use Rattle.words.specs.Lines.{lines_from, code_text};
ghost use Rattle.words.specs.Import.{line_verdict, primitives_verdict, fault_verdict, import_verdict, import_text};
ghost use Rattle.words.specs.Held.{Readable, Numbered};
ghost use Rattle.words_import.specs.HeldLines.{op_in, argument_in, ShortNames};

use file_format::Section;
use file_lines::WordTest;
use instructions::Argument;
use refusals::Refusal;

// Puts AT and OP of instruction n, which is of kind k, over out from `at` on, each with the space after it, and answers where they end. The two
// tables are those of `instructions::put_name_in`.
fn put_op(out: &mut [u8], at: usize, starts: &[u16; 62], names: &[u8], n: usize, k: usize) -> usize
    requires begins { Begins starts.now × Joined names.now }
    requires k_bound { (k < 61) × (at + length (op_in n k) ≤ length out.old) }
    ensures value { result ≡ at + length (op_in n k) }
    ensures out_after { out.new ≡ over out.old at (op_in n k) }
{
    let a = text_decimals::put_decimal(out, at, n as u64);
    let b = text_decimals::put(out, a, b" ");
    let c = instructions::put_name_in(out, b, starts, names, k);
    text_decimals::put(out, c, b" ")
}

// Puts ARG of a kind that takes `takes` over out from `at` on, and answers where it ends.
fn put_argument(
    out: &mut [u8],
    at: usize,
    primitives: &[u8],
    numbers: &[u16],
    index: usize,
    takes: Argument,
    argument: i32,
) -> usize
    requires { (index < 2048) × (at + length (argument_in (list primitives.now) numbers.now index argument takes) ≤ length out.old) }
    ensures value { result ≡ at + length (argument_in (list primitives.now) numbers.now index argument takes) }
    ensures out_after { out.new ≡ over out.old at (argument_in (list primitives.now) numbers.now index argument takes) }
{
    match takes {
        Argument::Absent => text_decimals::put(out, at, b"-"),
        Argument::Target => {
            let n = text::index_of(words::number_at(numbers, words::landing(index, argument)));
            text_decimals::put_decimal(out, at, n as u64)
        }
        Argument::Primitive => {
            let name = file_layout::listed_at(primitives, numbers::magnitude(argument) as usize);
            text_decimals::put(out, at, name)
        }
        Argument::Within(_) => text_decimals::put_integer(out, at, argument),
    }
}

// Puts the lines of all instructions over out from `at` on, and answers where they end.
fn put_lines(out: &mut [u8], at: usize, primitives: &[u8], numbers: &[u16], words: &[u8]) -> usize
    requires { Readable (words_of words.now) × Numbered (items (decoded (words_of words.now))) numbers.now × ShortNames (list primitives.now) × (at + 30 * 1024 ≤ length out.old) }
    ensures value { result ≡ at + length (lines_from (list primitives.now) (items (decoded (words_of words.now))) 0 (items (decoded (words_of words.now)))) }
    ensures out_after { out.new ≡ over out.old at (lines_from (list primitives.now) (items (decoded (words_of words.now))) 0 (items (decoded (words_of words.now)))) }
{
    let coded = instructions::coded_kinds();
    let starts = instructions::name_starts();
    let names = instructions::all_names();
    let codes = instructions::argument_codes();
    let lows = instructions::range_lows();
    let highs = instructions::range_highs();
    let mut e = at;
    let mut rest = words;
    let mut index: usize = 0;
    let mut count: usize = 0;
    while let Some((k, argument)) = words::read_head(&coded, rest) {
        let a = put_op(out, e, &starts, &names, count, k);
        let takes = instructions::argument_in(&codes, &lows, &highs, Some(k));
        let b = put_argument(out, a, primitives, numbers, index, takes, argument);
        e = text_decimals::put(out, b, b"\n");
        rest = words::after(k, rest);
        index += words::size_of(k);
        count += 1;
    }
    e
}

// Puts the names line and the lines of all instructions at the start of out, and answers their length.
fn put_code(out: &mut [u8], primitives: &[u8], numbers: &[u16], words: &[u8]) -> usize
    requires { Readable (words_of words.now) × Numbered (items (decoded (words_of words.now))) numbers.now × ShortNames (list primitives.now) × (32768 ≤ length out.old) }
    ensures value { result ≡ length (code_text (list primitives.now) (items (decoded (words_of words.now)))) }
    ensures out_after { out.new ≡ code_text (list primitives.now) (items (decoded (words_of words.now))) ++ drop (length (code_text (list primitives.now) (items (decoded (words_of words.now))))) out.old }
{
    let e = text_decimals::put(out, 0, b"AT OP ARG\n");
    put_lines(out, e, primitives, numbers, words)
}

// Whether the primitives line is laid out, and its names are in order: 2, then 4, at place 1.
fn check_names(line: &[u8]) -> Result<(), Refusal>
    ensures { result ≡ line_verdict line.now }
{
    if !file_lines::all_words(WordTest::Filled, line) {
        return Err(Refusal::Layout(1));
    }
    if !file_lines::names_laid_out(Section::Primitives, line) {
        return Err(Refusal::Layout(1));
    }
    if text::same(line, b"-") {
        return Ok(());
    }
    if !file_lines::all_words(WordTest::Primitive, line) {
        return Err(Refusal::BadName(1));
    }
    if !file_names::distinct(line) {
        return Err(Refusal::BadName(1));
    }
    Ok(())
}

// The primitives line, with or without a final line feed.
fn check_primitives(text: &[u8]) -> Result<(), Refusal>
    ensures { result ≡ primitives_verdict text.now }
{
    if text.len() == 0 {
        return Err(Refusal::Layout(1));
    }
    let rest = text::next_lines(text);
    if 0 < rest.len() {
        return Err(Refusal::Layout(1));
    }
    check_names(text::first_line(text))
}

// "New numbers: 12"
fn fault_verdict(place: Option<usize>) -> Result<(), Refusal>
    ensures { result ≡ fault_verdict place }
{
    match place {
        None => Ok(()),
        Some(i) => Err(Refusal::BadWord(i)),
    }
}

// Whether an import refuses words or their primitives line.
pub fn check_import(words: &[u8], primitives: &[u8]) -> Result<(), Refusal>
    ensures { result ≡ import_verdict words.now primitives.now }
{
    check_primitives(primitives)?;
    let listed = file_layout::count_listed(text::first_line(primitives));
    fault_verdict(words::code_fault(listed, words))
}

// Puts the lines of words that are accepted at the start of out, and answers their length.
pub fn put_import(words: &[u8], primitives: &[u8], out: &mut [u8]) -> usize
    requires { (import_verdict words.now primitives.now ≡ Ok tt) × (32768 ≤ length out.old) }
    ensures value { result ≡ length (import_text words.now primitives.now) }
    ensures out_after { out.new ≡ import_text words.now primitives.now ++ drop (length (import_text words.now primitives.now)) out.old }
{
    let line = text::first_line(primitives);
    let numbers = words::numbers_of(words);
    put_code(out, line, &numbers, words)
}
