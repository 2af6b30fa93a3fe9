// The text of a card's trace: its refusals, and the steps that it records. The meaning is in specs/.
#![tactic(auto)]

ghost use Rattle.std.specs.Prelude.{◌≡◌, ◌≤◌, length, get_or};
ghost use Rattle.text.specs.Text.{lines, no_line};
ghost use Rattle.replay_trace.specs.Traces.{trace_limit, cycle_range, entry_laid_out, text_laid_out, line_laid_out, entry_in_range, text_in_range, earliest, trace_acceptance, entry_of};
ghost use Rattle.replay_trace.specs.HeldScan.{line_test};

use numbers::Range;
use refusals::Refusal;

// A recorded step.
#[derive(Clone, Copy)]
pub struct Entry {
    pub at: usize,
    pub cycles: u32,
}

// What a line is tested for: row 2 or row 3 of the refusal table.
#[derive(Clone, Copy)]
enum LineTest {
    Layout,
    Range,
}

// "A trace has at most 4,096 lines after its names line"
const ENTRIES: usize = 4096;

// "CYCLES 0 to 4,000,000,000"
fn cycle_range() -> Range
    ensures { result ≡ cycle_range }
{
    Range {
        low: 0,
        high: 4000000000,
    }
}

// Row 2 on a recorded step.
fn entry_laid_out(line: &[u8]) -> bool
    ensures { result ≡ entry_laid_out line.now }
{
    if text::count_words(line) != 2 {
        return false;
    }
    let at = text::word_at(line, 0);
    let cycles = text::word_at(line, 1);
    if file_values::is_numeral(at) {
        return file_values::is_numeral(cycles);
    }
    false
}

// Row 2 on the text of the line with index k.
fn laid_out(k: usize, line: &[u8]) -> bool
    ensures { result ≡ text_laid_out k line.now }
{
    if k == 0 {
        return text::same(line, b"AT CYCLES");
    }
    if ENTRIES < k {
        return false;
    }
    entry_laid_out(line)
}

// Row 2 on the first line of `rest`, which has the index k.
fn line_laid_out(k: usize, rest: &[u8]) -> bool
    ensures { result ≡ line_laid_out k (get_or (lines rest.now) 0 no_line) }
{
    let line = text::first_line(rest);
    let ended = text::line_ends(rest, line.len());
    if ended {
        return laid_out(k, line);
    }
    false
}

// Row 3 on a recorded step.
fn entry_in_range(line: &[u8]) -> bool
    ensures { result ≡ entry_in_range line.now }
{
    let at = text::word_at(line, 0);
    let cycles = text::word_at(line, 1);
    if file_values::is_within(file_layout::addresses(), at) {
        return file_values::is_within(cycle_range(), cycles);
    }
    false
}

// Row 3 on the text of the line with index k.
fn in_range(k: usize, line: &[u8]) -> bool
    ensures { result ≡ text_in_range k line.now }
{
    if k == 0 {
        return true;
    }
    entry_in_range(line)
}

// A row on the first line of `rest`, which has the index k.
fn passes(test: LineTest, k: usize, rest: &[u8]) -> bool
    ensures { result ≡ line_test test k (get_or (lines rest.now) 0 no_line) }
{
    match test {
        LineTest::Layout => line_laid_out(k, rest),
        LineTest::Range => in_range(k, text::first_line(rest)),
    }
}

// The earliest line that fails a test, counted from 1.
fn earliest(test: LineTest, trace: &[u8]) -> Option<u32>
    requires { length trace.now ≤ trace_limit }
    ensures { result ≡ earliest (line_test test) 0 (lines trace.now) }
{
    let mut rest = trace;
    let mut passed: usize = 0;
    // A while: the lines of a text are met by cutting off the first, and how many there are is known only at its end.
    while 0 < rest.len() {
        if passes(test, passed, rest) {
            let next = text::next_lines(rest);
            rest = next;
            passed += 1;
        } else {
            return Some((passed + 1) as u32);
        }
    }
    None
}

// The refusal of a trace.
pub fn check_trace(trace: &[u8]) -> Result<(), Refusal>
    ensures { result ≡ trace_acceptance trace.now }
{
    if 131072 < trace.len() {
        return Err(Refusal::TextLength);
    }
    if trace.len() == 0 {
        return Err(Refusal::Layout(1));
    }
    let layout = earliest(LineTest::Layout, trace);
    if let Some(n) = layout {
        return Err(Refusal::Layout(n));
    }
    let range = earliest(LineTest::Range, trace);
    if let Some(n) = range {
        return Err(Refusal::OutOfRange(n));
    }
    Ok(())
}

// The step that a line records.
pub fn entry_of(line: &[u8]) -> Entry
    ensures at { result.at ≡ (entry_of line.now).at }
    ensures cycles { result.cycles ≡ (entry_of line.now).cycles }
{
    let at = file_values::natural_in(0, 62000, text::word_at(line, 0));
    let cycles = file_values::natural_in(0, 4000000000, text::word_at(line, 1));
    Entry {
        at: at as usize,
        cycles,
    }
}
