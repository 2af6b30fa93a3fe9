// The tests of one line of a routine file. The meaning is in specs/ here and of `file_format`.
#![tactic(auto)]

ghost use Rattle.std.specs.Prelude.{true, ◌&&◌, ◌≡◌, ℕ, ◌<◌, List, [], drop, ltb, Some};
ghost use Rattle.text.specs.Text.{line_words, all};
ghost use Rattle.text_decimals.specs.Decimal.{numeral};
ghost use Rattle.numbers.specs.Numbers.{within, numbers, same};
ghost use Rattle.file_format.specs.declared.Column.TheVariants.{Limit};
ghost use Rattle.file_format.specs.declared.Section.TheVariants.{Kinds};
ghost use Rattle.file_format.specs.Layout.{list};
ghost use Rattle.file_format.specs.Rows.{is_numeral, value, extra_range, extras_in_range, column_in_range, column_laid_out, on_cells, names_laid_out, values_laid_out, well_named};
ghost use Rattle.file_lines.specs.HeldLines.{word_test, is_new, marked};

use file_format::{Column, Role, Section};

// What a word is tested for: that it is not empty, spells a number, one of a price's cycles or words, a cell, a cell in range, a
// handle of one of the blocks that are present, a cell that holds one number or a handle, a name that a primitive may have.
#[derive(Clone, Copy)]
pub enum WordTest {
    Filled,
    Numeral,
    Cycles,
    Words,
    Cell,
    CellRange,
    Present(u8),
    Known,
    Primitive,
}

// ---- words of a line

fn word_passes(t: WordTest, w: &[u8]) -> bool
    ensures { result ≡ word_test t w.now }
{
    match t {
        WordTest::Filled => 0 < w.len(),
        WordTest::Numeral => file_values::is_numeral(w),
        WordTest::Cycles => file_values::is_within(file_layout::cycle_counts(), w),
        WordTest::Words => file_values::is_within(file_layout::word_counts(), w),
        WordTest::Cell => file_values::is_cell(w),
        WordTest::CellRange => file_values::cell_in_range(w),
        WordTest::Present(n) => file_values::cell_present(n as usize, w),
        WordTest::Known => file_values::is_single(w),
        WordTest::Primitive => file_names::is_name(w),
    }
}

// Whether all words of a line pass a test.
pub fn all_words(t: WordTest, line: &[u8]) -> bool
    ensures { result ≡ all (word_test t) (line_words line.now) }
{
    text::split_words(line).all(|w| word_passes(t, w))
}

// Whether all words listed on a line pass a test: `-` lists none.
pub fn all_listed(t: WordTest, line: &[u8]) -> bool
    ensures { result ≡ all (word_test t) (list line.now) }
{
    if text::same(line, b"-") {
        return true;
    }
    all_words(t, line)
}

// ---- lines of names

// Row 2 on a line of names.
pub fn names_laid_out(s: Section, line: &[u8]) -> bool
    ensures { result ≡ names_laid_out s line.now }
{
    match s {
        Section::Limits => text::same(line, b"BUDGET TICK"),
        Section::Kinds => true,
        Section::Primitives => file_layout::count_listed(line) <= 32,
        Section::Cells => 0 < file_layout::count_listed(line),
        Section::Fields => true,
        Section::Instructions => text::same(line, b"AT OP ARG"),
        Section::Answers => text::same(line, b"ANSWER"),
    }
}

// Whether the kind at a place is there and was not seen, and that it is seen now.
fn mark(seen: &mut [u8; 61], kind: Option<usize>) -> bool
    requires { (i : ℕ) → kind ≡ Some i → i < 61 }
    ensures new { result ≡ is_new seen.old kind }
    ensures marked { seen.new ≡ marked seen.old kind }
{
    let Some(k) = kind else {
        return false;
    };
    let before = seen[k];
    seen[k] = 1;
    before == 0
}

// Whether the words of a line name kinds, and none stands twice: by the kinds' places, with no word compared with another.
pub fn kinds_named(line: &[u8]) -> bool
    ensures { result ≡ well_named Kinds (line_words line.now) }
{
    let keyed = instructions::keyed_kinds();
    let starts = instructions::name_starts();
    let names = instructions::all_names();
    let mut seen = [0u8; 61];
    for word in text::split_words(line) {
        let kind = instructions::kind_in(&keyed, &starts, &names, word);
        if !mark(&mut seen, kind) {
            return false;
        }
    }
    true
}

// ---- lines of values

fn column_laid_out(c: Column, line: &[u8]) -> bool
    ensures { result ≡ column_laid_out c (list line.now) }
{
    if let Column::Cell = c {
        return all_listed(WordTest::Cell, line);
    }
    all_listed(WordTest::Numeral, line)
}

// Row 2 on a line of values, where `names` is the line of their names.
pub fn values_laid_out(c: Column, names: &[u8], line: &[u8]) -> bool
    ensures { result ≡ values_laid_out c (list names.now) (list line.now) }
{
    if file_layout::count_listed(line) == file_layout::count_listed(names) {
        return column_laid_out(c, line);
    }
    false
}

// BUDGET, then TICK.
fn limits_in_range(line: &[u8]) -> bool
    ensures { result ≡ column_in_range Limit [] (list line.now) }
{
    let budget = file_layout::listed_at(line, 0);
    let tick = file_layout::listed_at(line, 1);
    if file_values::is_within(file_layout::budgets(), budget) {
        return file_values::is_within(file_layout::ticks(), tick);
    }
    false
}

// Whether the extra w under a name is in its range.
fn extra_in_range(name: &[u8], w: &[u8]) -> bool
    ensures { result ≡ within (extra_range name.now) (value w.now) }
{
    if text::same(name, b"BRANCHIF") {
        return file_values::is_within(file_layout::extra_counts(), w);
    }
    if text::same(name, b"BRANCHIFNOT") {
        return file_values::is_within(file_layout::extra_counts(), w);
    }
    file_values::is_within(file_layout::no_extra(), w)
}

// What follows the first of a line's words; no bytes where nothing does, which stand for names that no kind has.
fn next_names(names: &[u8]) -> &[u8]
    ensures { (ws : List (List ℕ)) → extras_in_range (line_words result.now) ws ≡ extras_in_range (drop 1 (line_words names.now)) ws }
{
    let e = text::piece_length(names, b' ');
    if e < names.len() {
        return &names[e + 1..];
    }
    &names[..0]
}

// Whether each word of a line is in the range of the name at its place: one scan of both lines.
fn extras_in_range(names: &[u8], line: &[u8]) -> bool
    ensures { result ≡ extras_in_range (line_words names.now) (line_words line.now) }
{
    let mut above = names;
    for w in text::split_words(line) {
        let name = text::word_at(above, 0);
        if !extra_in_range(name, w) {
            return false;
        }
        above = next_names(above);
    }
    true
}

// The same of what the two lines list: `-` lists nothing, and as a name it is of no kind.
fn extras_listed(names: &[u8], line: &[u8]) -> bool
    ensures { result ≡ extras_in_range (list names.now) (list line.now) }
{
    if text::same(line, b"-") {
        return true;
    }
    extras_in_range(names, line)
}

// Row 3 on a line of values, where `names` is the line of their names.
pub fn values_in_range(c: Column, names: &[u8], line: &[u8]) -> bool
    ensures { result ≡ column_in_range c (list names.now) (list line.now) }
{
    match c {
        Column::Limit => limits_in_range(line),
        Column::Cycles => all_listed(WordTest::Cycles, line),
        Column::Words => all_listed(WordTest::Words, line),
        Column::Extra => extras_listed(names, line),
        Column::Cell => all_listed(WordTest::CellRange, line),
    }
}

// A test of each word on a line of cells; any other line passes.
pub fn cells_pass(t: WordTest, role: Role, line: &[u8]) -> bool
    ensures { result ≡ on_cells (word_test t) role line.now }
{
    if file_layout::holds_cells(role) {
        return all_listed(t, line);
    }
    true
}

// ---- answers

// Row 2 on answer k.
pub fn answer_laid_out(k: usize, line: &[u8]) -> bool
    ensures { result ≡ (ltb k 64 && is_numeral (numeral line.now)) }
{
    if 64 <= k {
        return false;
    }
    file_values::is_numeral(line)
}

// Row 3 on an answer.
pub fn answer_in_range(line: &[u8]) -> bool
    ensures { result ≡ within numbers (value line.now) }
{
    file_values::is_within(numbers::number_range(), line)
}
