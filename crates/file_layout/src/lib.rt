// The layout in code: which line holds what, the text of each line, what a line lists, the code lines, and the ranges by name.
// The meaning is in specs/Layout and specs/Rows of `file_format`.
#![tactic(auto)]

ghost use Rattle.std.specs.Prelude.{◌≡◌, [], ◌<◌, ◌≤◌, length, get_or, drop};
ghost use Rattle.text.specs.Text.{lines, lookup, find, among};
ghost use Rattle.instructions.specs.Kinds.{addresses};
ghost use Rattle.file_format.specs.declared.Role.TheVariants.{Code};
ghost use Rattle.file_format.specs.Layout.{layout, body, lines_of_code, list, section_place, column_place, is_names, is_values, is_role, holds_cells, text_at};
ghost use Rattle.file_format.specs.HeldLayout.{Starts};
ghost use Rattle.file_format.specs.Rows.{handles, first_addresses, at_range, budgets, ticks, cycle_counts, extra_counts, no_extra, word_counts};

use file_format::{Column, Role, Section};
use numbers::Range;
use text::Lookup;

// ---- the lines

// The number of lines of the layout.
pub const LINES: usize = 14;

// What each of them holds. All line numbers follow from this list.
const ROLES: [Role; LINES] = [
    Role::Names(Section::Limits),
    Role::Values(Section::Limits, Column::Limit),
    Role::Names(Section::Kinds),
    Role::Values(Section::Kinds, Column::Cycles),
    Role::Values(Section::Kinds, Column::Words),
    Role::Values(Section::Kinds, Column::Extra),
    Role::Names(Section::Primitives),
    Role::Values(Section::Primitives, Column::Cycles),
    Role::Values(Section::Primitives, Column::Words),
    Role::Names(Section::Cells),
    Role::Values(Section::Cells, Column::Cell),
    Role::Names(Section::Fields),
    Role::Values(Section::Fields, Column::Cell),
    Role::Names(Section::Instructions),
];

// The role of line i of the layout, counted from 0.
pub fn role_at(i: usize) -> Role
    requires { i < length layout }
    ensures { result ≡ get_or layout i (Code 0) }
{
    ROLES[i]
}

fn section_place(s: Section) -> u8
    ensures { result ≡ section_place s }
{
    match s {
        Section::Limits => 0,
        Section::Kinds => 1,
        Section::Primitives => 2,
        Section::Cells => 3,
        Section::Fields => 4,
        Section::Instructions => 5,
        Section::Answers => 6,
    }
}

fn column_place(c: Column) -> u8
    ensures { result ≡ column_place c }
{
    match c {
        Column::Limit => 0,
        Column::Cycles => 1,
        Column::Words => 2,
        Column::Extra => 3,
        Column::Cell => 4,
    }
}

// Whether a line holds the names of a section.
fn is_names(s: Section, role: Role) -> bool
    ensures { result ≡ is_names s role }
{
    let Role::Names(t) = role else {
        return false;
    };
    section_place(s) == section_place(t)
}

// Whether it holds a column of values.
fn is_values(s: Section, c: Column, role: Role) -> bool
    ensures { result ≡ is_values s c role }
{
    let Role::Values(t, d) = role else {
        return false;
    };
    if section_place(s) == section_place(t) {
        return column_place(c) == column_place(d);
    }
    false
}

// Whether a line of the layout is the one that holds a role.
fn is_role(role: Role, other: Role) -> bool
    ensures { result ≡ is_role role other }
{
    if let Role::Names(s) = role {
        return is_names(s, other);
    }
    let Role::Values(s, c) = role else {
        return false;
    };
    is_values(s, c, other)
}

// Whether a line lists cells.
pub fn holds_cells(role: Role) -> bool
    ensures { result ≡ holds_cells role }
{
    if is_values(Section::Cells, Column::Cell, role) {
        return true;
    }
    is_values(Section::Fields, Column::Cell, role)
}

// The text of the line of the layout that holds a role; no bytes where there is no such line.
pub fn text_of(text: &[u8], role: Role) -> &[u8]
    ensures { result.now ≡ text_at role layout (lines text.now) }
{
    let mut rest = text;
    for i in 0..LINES {
        if is_role(role, role_at(i)) {
            return text::first_line(rest);
        }
        rest = text::next_lines(rest);
    }
    &text[..0]
}

// Where the next line of a text begins, where a line begins at `at`; the end of the text where there is none.
fn next_start(text: &[u8], at: usize) -> usize
    requires { at ≤ length text.now }
    ensures inside { result ≤ length text.now }
    ensures lines { lines (drop result text.now) ≡ drop 1 (lines (drop at text.now)) }
{
    let rest = &text[at..];
    let e = text::piece_length(rest, b'\n');
    if e < rest.len() {
        return at + e + 1;
    }
    text.len()
}

// Where each line of the layout begins in a text, and where the lines after it do, to be lent to `line_in` and `body_in`.
pub fn starts_of(text: &[u8]) -> [usize; 15]
    ensures { Starts text.now result }
{
    let mut starts = [0usize; 15];
    for i in 0..LINES {
        starts[i + 1] = next_start(text, starts[i]);
    }
    starts
}

// The text of the line of the layout that holds a role, by where the lines begin; no bytes where there is no such line.
pub fn line_in<'a>(text: &'a [u8], starts: &[usize; 15], role: Role) -> &'a [u8]
    requires { Starts text.now starts.now }
    ensures { result.now ≡ text_at role layout (lines text.now) }
{
    for i in 0..LINES {
        if is_role(role, role_at(i)) {
            let at = starts[i];
            return text::first_line(&text[at..]);
        }
    }
    &text[..0]
}

// The lines after the layout, by where they begin.
pub fn body_in<'a>(text: &'a [u8], starts: &[usize; 15]) -> &'a [u8]
    requires { Starts text.now starts.now }
    ensures { lines result.now ≡ body (lines text.now) }
{
    let at = starts[LINES];
    &text[at..]
}

// The lines after the layout.
pub fn body_of(text: &[u8]) -> &[u8]
    ensures { lines result.now ≡ body (lines text.now) }
{
    text::after_lines(text, LINES)
}

// The number of code lines: the first line after the layout, and those up to a line ANSWER.
pub fn count_code(body: &[u8]) -> usize
    ensures { result ≡ length (lines_of_code (lines body.now)) }
{
    if body.len() == 0 {
        return 0;
    }
    let mut rest = text::next_lines(body);
    let mut n = 1;
    // A while: each turn takes a line off the rest. `split` would give one piece more, after the last line feed.
    while 0 < rest.len() {
        let line = text::first_line(rest);
        if text::same(line, b"ANSWER") {
            return n;
        }
        let next = text::after_line(rest, line.len());
        rest = next;
        n += 1;
    }
    n
}

// ---- what a line lists: `-` lists nothing

// The number of words listed on a line.
pub fn count_listed(line: &[u8]) -> usize
    ensures { result ≡ length (list line.now) }
{
    if text::same(line, b"-") {
        return 0;
    }
    text::count_words(line)
}

// Word k listed on a line, counted from 0; no bytes where it lists fewer.
pub fn listed_at(line: &[u8], k: usize) -> &[u8]
    ensures { result.now ≡ get_or (list line.now) k [] }
{
    if text::same(line, b"-") {
        return &line[..0];
    }
    text::word_at(line, k)
}

// Looks a word up among those listed on a line, and ends where it stands; of none where the line is `-`.
pub fn look_up(line: &[u8], w: &[u8]) -> Lookup
    ensures { result ≡ lookup w.now (list line.now) }
{
    if text::same(line, b"-") {
        return Lookup {
            place: None,
            looked: 0,
        };
    }
    text::find(w, line)
}

// Whether w is one of them.
pub fn is_listed(w: &[u8], line: &[u8]) -> bool
    ensures { result ≡ among w.now (list line.now) }
{
    let found = look_up(line, w);
    let place = found.place;
    let Some(_) = place else {
        return false;
    };
    true
}

// Its place as an index; 0 where it is missing.
pub fn index_listed(line: &[u8], w: &[u8]) -> usize
    ensures { result ≡ find w.now (list line.now) }
{
    let found = look_up(line, w);
    let place = found.place;
    text::index_of(place)
}

// ---- ranges

// "1 to 1,000,000"
pub fn budgets() -> Range
    ensures { result ≡ budgets }
{
    Range {
        low: 1,
        high: 1000000,
    }
}

// "cycles per tick, 1 to 4,000,000,000"
pub fn ticks() -> Range
    ensures { result ≡ ticks }
{
    Range {
        low: 1,
        high: 4000000000,
    }
}

// "cycles 0 to 65,535"
pub fn cycle_counts() -> Range
    ensures { result ≡ cycle_counts }
{
    Range {
        low: 0,
        high: 65535,
    }
}

// "extra cycles .. 0 to 65,535"
pub fn extra_counts() -> Range
    ensures { result ≡ extra_counts }
{
    Range {
        low: 0,
        high: 65535,
    }
}

// "words 0 to 255"
pub fn word_counts() -> Range
    ensures { result ≡ word_counts }
{
    Range { low: 0, high: 255 }
}

// "Other kinds must hold 0 there"
pub fn no_extra() -> Range
    ensures { result ≡ no_extra }
{
    Range { low: 0, high: 0 }
}

// "`#k` with k outside 0 to 7 is 3"
pub fn handles() -> Range
    ensures { result ≡ handles }
{
    Range { low: 0, high: 7 }
}

// "AT starts anywhere from 0 to 60,000"
pub fn first_addresses() -> Range
    ensures { result ≡ first_addresses }
{
    Range {
        low: 0,
        high: 60000,
    }
}

// "Targets are addresses, 0 to 62,000."
pub fn addresses() -> Range
    ensures { result ≡ addresses }
{
    Range {
        low: 0,
        high: 62000,
    }
}

// The range of AT on code line k: "a later AT outside 0 to 62,000 is refusal 3"
pub fn at_range(k: usize) -> Range
    ensures { result ≡ at_range k }
{
    if k == 0 {
        return first_addresses();
    }
    addresses()
}
