// The rows of the refusal table over the lines of a text. The meaning is in specs/.
#![tactic(auto)]

ghost use Rattle.std.specs.Prelude.{◌≡◌, true, ◌&&◌, List, ◌⊎◌, ℕ, ◌≤◌, length, Some};
ghost use Rattle.text.specs.Text.{Line, lines, place_among, among};
ghost use Rattle.file_format.specs.declared.Role.TheVariants.{Names, Code};
ghost use Rattle.file_format.specs.declared.Section.TheVariants.{Fields};
ghost use Rattle.file_format.specs.declared.Row.{Row};
ghost use Rattle.file_format.specs.declared.Row.TheVariants.{Layout, Name, Price};
ghost use Rattle.file_format.specs.Layout.{list, listed};
ghost use Rattle.file_format.specs.HeldLayout.{Starts};
ghost use Rattle.file_format.specs.Rows.{well_named, is_laid_out, in_range, named, all_known, block_sizes, test, refused_line};
ghost use Rattle.instructions.specs.Kinds.{kind_names, kind_at};
ghost use Rattle.file_code.specs.HeldCode.{Cut, PricesKept};
ghost use Rattle.file_check.specs.HeldScan.{Context, Other, HeadingBefore, line_with, is_heading, role_of, heading_after, missing};
ghost use Rattle.file_check.specs.HeldChecks.{read_by, check_of, Due, tested_by, kept_by, kept_after, refused_at};

use file_code::CodeWords;
use file_format::{Role, Section};
use file_lines::WordTest;
use instructions::Argument;
use refusals::Refusal;

// Which program reads a text: the run has one row more.
#[derive(Clone, Copy)]
pub enum Reader {
    Bound,
    Run,
}

// Row 2 on a line that is not code.
fn laid_out(text: &[u8], places: &[usize; 15], role: Role, line: &[u8]) -> bool
    requires other { Other role }
    requires starts { Starts text.now places.now }
    ensures { result ≡ is_laid_out (lines text.now) role line.now }
{
    match role {
        Role::Names(s) => file_lines::names_laid_out(s, line),
        Role::Values(s, c) => file_lines::values_laid_out(
            c,
            file_layout::line_in(text, places, Role::Names(s)),
            line,
        ),
        Role::Code(_) => true,
        Role::Answer(k) => file_lines::answer_laid_out(k, line),
    }
}

// Row 3 on a line that is not code.
fn in_range(text: &[u8], places: &[usize; 15], role: Role, line: &[u8]) -> bool
    requires other { Other role }
    requires starts { Starts text.now places.now }
    ensures { result ≡ in_range (lines text.now) role line.now }
{
    match role {
        Role::Names(_) => true,
        Role::Values(s, c) => file_lines::values_in_range(
            c,
            file_layout::line_in(text, places, Role::Names(s)),
            line,
        ),
        Role::Code(_) => true,
        Role::Answer(_) => file_lines::answer_in_range(line),
    }
}

// Row 4 on a line of names.
fn well_named(s: Section, line: &[u8]) -> bool
    ensures { result ≡ well_named s (list line.now) }
{
    if text::same(line, b"-") {
        return true;
    }
    match s {
        Section::Kinds => file_lines::kinds_named(line),
        Section::Primitives => {
            if file_lines::all_words(WordTest::Primitive, line) {
                file_names::distinct(line)
            } else {
                false
            }
        }
        Section::Cells => file_names::cells_named(line),
        Section::Fields => {
            let named = file_names::blocks_named(line);
            named.total == text::count_words(line)
        }
        _ => true,
    }
}

// Row 4 on a line that is not code, where `blocks` are present.
fn named(blocks: usize, role: Role, line: &[u8]) -> bool
    requires other { Other role }
    requires blocks_bound { blocks ≤ 8 }
    ensures { (ls : List Line) → blocks ≡ length (block_sizes (listed (Names Fields) ls)) → result ≡ named ls role line.now }
{
    if let Role::Names(s) = role {
        return well_named(s, line);
    }
    file_lines::cells_pass(WordTest::Present(blocks as u8), role, line)
}

// Row 11 on a line.
fn all_known(role: Role, line: &[u8]) -> bool
    ensures { result ≡ all_known role line.now }
{
    file_lines::cells_pass(WordTest::Known, role, line)
}

// Row 2 on a line that is not code, which a line feed ends or not.
fn laid_out_line(text: &[u8], places: &[usize; 15], role: Role, line: &[u8], ended: bool) -> bool
    requires other { Other role }
    requires starts { Starts text.now places.now }
    ensures { result ≡ test Layout (lines text.now) role (line_with line.now ended) }
{
    if !ended {
        return false;
    }
    if !file_lines::all_words(WordTest::Filled, line) {
        return false;
    }
    laid_out(text, places, role, line)
}

// What the rows look at in a text beside a line: the number of blocks, the first address, the number of code lines.
#[derive(Clone, Copy)]
struct Counts {
    blocks: usize,
    first: usize,
    count: usize,
}

// What the tests of the rows come to on a line.
#[derive(Clone, Copy)]
struct Tests {
    layout: bool,
    range: bool,
    name: bool,
    price: bool,
    target: bool,
    forward: bool,
    known: bool,
}

// The rows on a line that is not code.
fn test_line(
    text: &[u8],
    places: &[usize; 15],
    blocks: usize,
    role: Role,
    line: &[u8],
    ended: bool,
) -> Tests
    requires other { Other role }
    requires blocks_value { (blocks ≡ length (block_sizes (listed (Names Fields) (lines text.now)))) × (blocks ≤ 8) }
    requires starts { Starts text.now places.now }
    ensures { (row : Row) → tested_by row result ≡ test row (lines text.now) role (line_with line.now ended) }
{
    let layout = laid_out_line(text, places, role, line, ended);
    let range = in_range(text, places, role, line);
    let name = named(blocks, role, line);
    let known = all_known(role, line);
    Tests {
        layout: layout,
        range: range,
        name: name,
        price: true,
        target: true,
        forward: true,
        known: known,
    }
}

// Row 5 on a code line, where it is due.
fn is_priced(kinds: &[u8], prices: &mut [u8; 61], kind: Option<usize>, op: &[u8], due: bool) -> bool
    requires kind_value { kind ≡ place_among op.now kind_names }
    requires prices_kept { PricesKept (list kinds.now) prices.old }
    ensures priced { due ≡ true → result ≡ among op.now (list kinds.now) }
    ensures kept { PricesKept (list kinds.now) prices.new }
{
    if due {
        return file_code::code_priced(kinds, prices, kind, op);
    }
    true
}

// The line where a primitive is looked for on a code line: that of their names as long as row 4 is due, and else none.
fn names_due(primitives: &[u8], due: bool) -> &[u8]
    ensures { due ≡ true → result.now ≡ primitives.now }
{
    if due {
        return primitives;
    }
    &primitives[..0]
}

// Row 2 on a line by its parts: that a line feed ends it, that no word is empty, and that the words are those called for.
fn all_three(ended: bool, filled: bool, laid: bool) -> bool
    ensures { result ≡ (ended && filled && laid) }
{
    if !ended {
        return false;
    }
    if filled { laid } else { false }
}

// A code line beside its bytes: which one it is, whether a line feed ends it, whether rows 4 and 5 are due, and where the code is.
#[derive(Clone, Copy)]
struct CodeLine {
    k: usize,
    ended: bool,
    due: bool,
    first: usize,
    count: usize,
}

fn code_line(counts: Counts, k: usize, ended: bool, due: bool) -> CodeLine
    ensures { result ≡ record { k = k; ended = ended; due = due; first = counts.first; count = counts.count } }
{
    CodeLine {
        k: k,
        ended: ended,
        due: due,
        first: counts.first,
        count: counts.count,
    }
}

// The rows on a code line that is cut into its words, of a kind that takes `takes`. What rows 4 and 5 look for on other lines is looked for only
// where they are due: no wrong name stands before.
fn test_code(
    kinds: &[u8],
    primitives: &[u8],
    at: CodeLine,
    line: &[u8],
    words: CodeWords,
    takes: Argument,
    prices: &mut [u8; 61],
) -> Tests
    requires first_bound { (at.first ≤ 60000) × (at.count ≤ 32768) × (at.k ≤ 32768) }
    requires prices_kept { PricesKept (list kinds.now) prices.old }
    requires cut { Cut line.now words × ((i : ℕ) → words.kind ≡ Some i → takes ≡ (kind_at i).argument) }
    ensures tests { (ls : List Line) (blocks : ℕ) → Context ls kinds.now primitives.now blocks at.first at.count → (row : Row) → Due row ls → ((row ≡ Name) ⊎ (row ≡ Price) → at.due ≡ true) → tested_by row result ≡ test row ls (Code at.k) (line_with line.now at.ended) }
    ensures kept { PricesKept (list kinds.now) prices.new }
{
    let kind = words.kind;
    let e = words.at;
    let f = words.op;
    let g = words.arg;
    let rest = file_code::after_word(line, e);
    let last = file_code::after_word(rest, f);
    let names = names_due(primitives, at.due);
    let tested = file_code::test_code(
        at.first as i64,
        at.count,
        names,
        at.k,
        kind,
        takes,
        &line[..e],
        &last[..g],
    );
    let layout = all_three(at.ended, file_code::is_whole(line, e, f, g), tested.layout);
    let price = is_priced(kinds, prices, kind, &rest[..f], at.due);
    Tests {
        layout: layout,
        range: tested.range,
        name: tested.name,
        price: price,
        target: tested.target,
        forward: tested.forward,
        known: true,
    }
}

// Every test passes, or none does.
fn all_tests(passes: bool) -> Tests
    ensures { (row : Row) → tested_by row result ≡ passes }
{
    Tests {
        layout: passes,
        range: passes,
        name: passes,
        price: passes,
        target: passes,
        forward: passes,
        known: passes,
    }
}

// The earliest line that each row refuses, or 0 as long as it refuses none.
#[derive(Clone, Copy)]
struct Earliest {
    layout: u32,
    range: u32,
    name: u32,
    price: u32,
    target: u32,
    forward: u32,
    known: u32,
}

// The line that a row refuses, or 0, after line n.
fn earlier(kept: u32, passes: bool, n: u32) -> u32
    ensures { result ≡ kept_after kept passes n }
{
    if 0 < kept {
        return kept;
    }
    if passes { 0 } else { n }
}

// The same of every row.
fn keep(kept: Earliest, tests: Tests, n: u32) -> Earliest
    ensures { (row : Row) → kept_by row result ≡ kept_after (kept_by row kept) (tested_by row tests) n }
{
    let layout = earlier(kept.layout, tests.layout, n);
    let range = earlier(kept.range, tests.range, n);
    let name = earlier(kept.name, tests.name, n);
    let price = earlier(kept.price, tests.price, n);
    let target = earlier(kept.target, tests.target, n);
    let forward = earlier(kept.forward, tests.forward, n);
    let known = earlier(kept.known, tests.known, n);
    Earliest {
        layout: layout,
        range: range,
        name: name,
        price: price,
        target: target,
        forward: forward,
        known: known,
    }
}

// No row refuses a line so far.
fn none_refused() -> Earliest
    ensures { (row : Row) → kept_by row result ≡ 0 }
{
    Earliest {
        layout: 0,
        range: 0,
        name: 0,
        price: 0,
        target: 0,
        forward: 0,
        known: 0,
    }
}

// Whether line i is ANSWER, the heading of the answers.
fn is_heading(i: usize, line: &[u8]) -> bool
    ensures { result ≡ is_heading i line.now }
{
    if file_layout::LINES < i {
        return text::same(line, b"ANSWER");
    }
    false
}

// The role of line i, where the heading is a line before it, or 0 as long as there was none.
fn role_of(i: usize, heading: usize, line: &[u8]) -> Role
    requires { HeadingBefore i heading }
    ensures { result ≡ role_of i heading line.now }
{
    if i < file_layout::LINES {
        return file_layout::role_at(i);
    }
    if 0 < heading {
        return Role::Answer(i - heading - 1);
    }
    if is_heading(i, line) {
        return Role::Names(Section::Answers);
    }
    Role::Code(i - file_layout::LINES)
}

// The heading after line i.
fn heading_after(i: usize, heading: usize, line: &[u8]) -> usize
    ensures { result ≡ heading_after i heading line.now }
{
    if 0 < heading {
        return heading;
    }
    if is_heading(i, line) { i } else { 0 }
}

// Whether a line is missing after the first i, which are all.
fn misses(i: usize, heading: usize) -> bool
    requires { HeadingBefore i heading }
    ensures { result ≡ missing i heading }
{
    if i <= file_layout::LINES {
        return true;
    }
    if 0 < heading { i == heading + 1 } else { false }
}

// One scan of the lines: the earliest line that each row refuses. It ends at the first line that row 2 refuses.
fn scan(
    text: &[u8],
    places: &[usize; 15],
    kinds: &[u8],
    primitives: &[u8],
    counts: Counts,
) -> Earliest
    requires text_len_bound { (length text.now ≤ 32768) × Starts text.now places.now }
    requires context { Context (lines text.now) kinds.now primitives.now counts.blocks counts.first counts.count }
    ensures { (row : Row) → Due row (lines text.now) → refused_at (kept_by row result) ≡ refused_line row (lines text.now) }
{
    let keyed = instructions::keyed_kinds();
    let starts = instructions::name_starts();
    let table = instructions::all_names();
    let codes = instructions::argument_codes();
    let lows = instructions::range_lows();
    let highs = instructions::range_highs();
    let mut prices = [0u8; 61];
    let mut kept = none_refused();
    let mut rest = text;
    let mut passed: usize = 0;
    let mut heading: usize = 0;
    // A while: the lines of a text are met by cutting off the first, and how many there are is known only at its end.
    while 0 < rest.len() {
        let line = text::first_line(rest);
        let ended = text::line_ends(rest, line.len());
        let role = role_of(passed, heading, line);
        let due = kept.name == 0;
        let tests = if let Role::Code(k) = role {
            let at = code_line(counts, k, ended, due);
            let words = file_code::cut_code(line, &keyed, &starts, &table);
            let kind = words.kind;
            let takes = instructions::argument_in(&codes, &lows, &highs, kind);
            test_code(kinds, primitives, at, line, words, takes, &mut prices)
        } else {
            test_line(text, places, counts.blocks, role, line, ended)
        };
        let more = keep(kept, tests, (passed + 1) as u32);
        kept = more;
        if 0 < kept.layout {
            return kept;
        }
        heading = heading_after(passed, heading, line);
        let next = text::after_line(rest, line.len());
        rest = next;
        passed += 1;
    }
    let whole = !misses(passed, heading);
    keep(kept, all_tests(whole), (passed + 1) as u32)
}

// The rows speak in their order.
fn check_rows(
    reader: Reader,
    text: &[u8],
    places: &[usize; 15],
    kinds: &[u8],
    primitives: &[u8],
    counts: Counts,
) -> Result<(), Refusal>
    requires text_len_bound { length text.now ≤ 32768 }
    requires context { Context (lines text.now) kinds.now primitives.now counts.blocks counts.first counts.count }
    requires starts { Starts text.now places.now }
    ensures { result ≡ check_of (read_by reader text.now) }
{
    let refused = scan(text, places, kinds, primitives, counts);
    if 0 < refused.layout {
        return Err(Refusal::Layout(refused.layout));
    }
    if 0 < refused.range {
        return Err(Refusal::OutOfRange(refused.range));
    }
    if 0 < refused.name {
        return Err(Refusal::BadName(refused.name));
    }
    if 0 < refused.price {
        return Err(Refusal::Unpriced(refused.price));
    }
    if 0 < refused.target {
        return Err(Refusal::NoTarget(refused.target));
    }
    if 0 < refused.forward {
        return Err(Refusal::Backward(refused.forward));
    }
    let Reader::Run = reader else {
        return Ok(());
    };
    if 0 < refused.known {
        return Err(Refusal::UnknownCell(refused.known));
    }
    Ok(())
}

// The refusal of a text, as the bound or the run reads it. What the rows look at beside a line is found once.
pub fn check(reader: Reader, text: &[u8]) -> Result<(), Refusal>
    ensures { result ≡ check_of (read_by reader text.now) }
{
    if 32768 < text.len() {
        return Err(Refusal::TextLength);
    }
    let places = file_layout::starts_of(text);
    let kinds = file_layout::line_in(text, &places, Role::Names(Section::Kinds));
    let primitives = file_layout::line_in(text, &places, Role::Names(Section::Primitives));
    let fields = file_layout::line_in(text, &places, Role::Names(Section::Fields));
    let named = file_names::blocks_named(fields);
    let blocks = named.count;
    let body = file_layout::body_in(text, &places);
    let first = file_values::first_address(body);
    let count = file_layout::count_code(body);
    let counts = Counts {
        blocks: blocks,
        first: first,
        count: count,
    };
    check_rows(reader, text, &places, kinds, primitives, counts)
}
