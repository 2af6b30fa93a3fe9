// The text of the cuts: its refusals, and the cuts that it lists. The meaning is in specs/.
#![tactic(auto)]

ghost use Rattle.std.specs.Prelude.{◌≡◌, ◌++◌, ◌≤◌, length, get_or};
ghost use Rattle.text.specs.Text.{lines, no_line};
ghost use Rattle.file_format.specs.Layout.{list};
ghost use Rattle.replay_trace.specs.Traces.{earliest};
ghost use Rattle.split_theory.specs.Held.{cuts_from, Few};
ghost use Rattle.split_cuts.specs.Cuts.{cuts_limit, cut_laid_out, text_laid_out, line_laid_out, text_in_range, text_named, cuts_acceptance, place_number, cut_number, cuts_of};
ghost use Rattle.split_cuts.specs.HeldScan.{line_test};

use refusals::Refusal;
use split_theory::Cuts;

// What a line is tested for: row 2, row 3 or row 4 of the refusal table.
#[derive(Clone, Copy)]
enum LineTest {
    Layout,
    Range,
    Name,
}

// At most 16 lines after the names line.
const CUTS: usize = 16;

// The names of the places that a start can have, in their order, parted by single spaces.
const NAMES: [u8; 938] =
    *b"ACCU S0 S1 S2 S3 S4 S5 S6 S7 S8 S9 S10 S11 S12 S13 S14 S15 S16 S17 S18 S19 S20 S21 S22 S23 S24 S25 S26 S27 S28 S29 S30 S31 S32 S33 S34 S35 S36 S37 S38 S39 S40 S41 S42 S43 S44 S45 S46 S47 S48 S49 S50 S51 S52 S53 S54 S55 S56 S57 S58 S59 S60 S61 S62 S63 B0.0 B0.1 B0.2 B0.3 B0.4 B0.5 B0.6 B0.7 B0.8 B0.9 B0.10 B0.11 B0.12 B0.13 B0.14 B0.15 B1.0 B1.1 B1.2 B1.3 B1.4 B1.5 B1.6 B1.7 B1.8 B1.9 B1.10 B1.11 B1.12 B1.13 B1.14 B1.15 B2.0 B2.1 B2.2 B2.3 B2.4 B2.5 B2.6 B2.7 B2.8 B2.9 B2.10 B2.11 B2.12 B2.13 B2.14 B2.15 B3.0 B3.1 B3.2 B3.3 B3.4 B3.5 B3.6 B3.7 B3.8 B3.9 B3.10 B3.11 B3.12 B3.13 B3.14 B3.15 B4.0 B4.1 B4.2 B4.3 B4.4 B4.5 B4.6 B4.7 B4.8 B4.9 B4.10 B4.11 B4.12 B4.13 B4.14 B4.15 B5.0 B5.1 B5.2 B5.3 B5.4 B5.5 B5.6 B5.7 B5.8 B5.9 B5.10 B5.11 B5.12 B5.13 B5.14 B5.15 B6.0 B6.1 B6.2 B6.3 B6.4 B6.5 B6.6 B6.7 B6.8 B6.9 B6.10 B6.11 B6.12 B6.13 B6.14 B6.15 B7.0 B7.1 B7.2 B7.3 B7.4 B7.5 B7.6 B7.7 B7.8 B7.9 B7.10 B7.11 B7.12 B7.13 B7.14 B7.15";

// Row 2 on a cut.
fn cut_laid_out(line: &[u8]) -> bool
    ensures { result ≡ cut_laid_out line.now }
{
    if text::count_words(line) != 2 {
        return false;
    }
    let name = text::word_at(line, 0);
    let from = text::word_at(line, 1);
    if 0 < name.len() {
        return file_values::is_numeral(from);
    }
    false
}

// Row 2 on the text of the line with index k.
fn laid_out(k: usize, line: &[u8]) -> bool
    ensures { result ≡ text_laid_out k line.now }
{
    if k == 0 {
        return text::same(line, b"CELL FROM");
    }
    if CUTS < k {
        return false;
    }
    cut_laid_out(line)
}

// Row 2 on the first line of `rest`, which has the index k.
fn line_laid_out(k: usize, rest: &[u8]) -> bool
    ensures { result ≡ line_laid_out k (get_or (lines rest.now) 0 no_line) }
{
    let line = text::first_line(rest);
    let ended = text::line_ends(rest, line.len());
    if ended {
        return laid_out(k, line);
    }
    false
}

// Row 3 on the text of the line with index k.
fn in_range(k: usize, line: &[u8]) -> bool
    ensures { result ≡ text_in_range k line.now }
{
    if k == 0 {
        return true;
    }
    let from = text::word_at(line, 1);
    file_values::is_within(numbers::number_range(), from)
}

// Row 4 on the text of the line with index k, where `cells` and `fields` are the routine's lines of their names.
fn named(k: usize, line: &[u8], cells: &[u8], fields: &[u8]) -> bool
    ensures { result ≡ text_named (list cells.now ++ list fields.now) k line.now }
{
    if k == 0 {
        return true;
    }
    let name = text::word_at(line, 0);
    if file_layout::is_listed(name, cells) {
        return true;
    }
    file_layout::is_listed(name, fields)
}

// A row on the first line of `rest`, which has the index k.
fn passes(test: LineTest, k: usize, rest: &[u8], cells: &[u8], fields: &[u8]) -> bool
    ensures { result ≡ line_test test (list cells.now ++ list fields.now) k (get_or (lines rest.now) 0 no_line) }
{
    match test {
        LineTest::Layout => line_laid_out(k, rest),
        LineTest::Range => in_range(k, text::first_line(rest)),
        LineTest::Name => named(k, text::first_line(rest), cells, fields),
    }
}

// The earliest line that fails a test, counted from 1.
fn earliest(test: LineTest, cuts: &[u8], cells: &[u8], fields: &[u8]) -> Option<u32>
    requires { length cuts.now ≤ cuts_limit }
    ensures { result ≡ earliest (line_test test (list cells.now ++ list fields.now)) 0 (lines cuts.now) }
{
    let mut rest = cuts;
    let mut passed: usize = 0;
    // A while: the lines of a text are met by cutting off the first, and how many there are is known only at its end.
    while 0 < rest.len() {
        if passes(test, passed, rest, cells, fields) {
            let next = text::next_lines(rest);
            rest = next;
            passed += 1;
        } else {
            return Some((passed + 1) as u32);
        }
    }
    None
}

// The refusal of the cuts, where `cells` and `fields` are the routine's lines of the names of its cells.
pub fn check_cuts(cuts: &[u8], cells: &[u8], fields: &[u8]) -> Result<(), Refusal>
    ensures { result ≡ cuts_acceptance (list cells.now ++ list fields.now) cuts.now }
{
    if 4096 < cuts.len() {
        return Err(Refusal::TextLength);
    }
    if cuts.len() == 0 {
        return Err(Refusal::Layout(1));
    }
    let layout = earliest(LineTest::Layout, cuts, cells, fields);
    if let Some(n) = layout {
        return Err(Refusal::Layout(n));
    }
    let range = earliest(LineTest::Range, cuts, cells, fields);
    if let Some(n) = range {
        return Err(Refusal::OutOfRange(n));
    }
    let name = earliest(LineTest::Name, cuts, cells, fields);
    if let Some(n) = name {
        return Err(Refusal::BadName(n));
    }
    Ok(())
}

// The number of the place that a name stands for.
fn place_of(w: &[u8]) -> usize
    ensures { result ≡ place_number w.now }
{
    let found = text::find(w, &NAMES);
    let place = found.place;
    text::index_of(place)
}

// The number of the cut on a line.
fn number_of(line: &[u8]) -> i32
    ensures { result ≡ cut_number line.now }
{
    file_parts::number_of(numbers::number_range(), text::word_at(line, 1))
}

// The cuts of an accepted text.
pub fn cuts_of(cuts: &[u8]) -> Cuts
    requires { length (lines cuts.now) ≤ 17 }
    ensures holds { cuts_from result 0 ≡ cuts_of cuts.now }
    ensures few { Few result }
{
    let mut places = [0usize; 16];
    let mut numbers = [0i32; 16];
    let mut rest = text::next_lines(cuts);
    let mut n = 0;
    // A while: the lines of a text are met by cutting off the first, and how many there are is known only at its end.
    while 0 < rest.len() {
        let line = text::first_line(rest);
        let k = place_of(text::word_at(line, 0));
        places[n] = k;
        let v = number_of(line);
        numbers[n] = v;
        let next = text::next_lines(rest);
        rest = next;
        n += 1;
    }
    Cuts {
        places: places,
        numbers: numbers,
        count: n,
    }
}
