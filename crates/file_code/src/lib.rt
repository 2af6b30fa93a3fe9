// A code line of a routine file: it is cut into its words, and the rows of the refusal table are put to them. The meaning is in specs/ here
// and of `file_format`.
#![tactic(auto)]

ghost use Rattle.std.specs.Prelude.{true, cond, ◌&&◌, ◌≡◌, ℕ, suc, ◌<◌, ◌≤◌, pos, ◌+ℤ◌, List, [], length, get_or, Some};
ghost use Rattle.text.specs.Text.{line_words, place_among, among};
ghost use Rattle.text_decimals.specs.Decimal.{numeral};
ghost use Rattle.text_decimals.specs.HeldMagnitude.{clamped};
ghost use Rattle.numbers.specs.Numbers.{within, same};
ghost use Rattle.instructions.specs.Kinds.{kind_names, kind_at};
ghost use Rattle.instructions.specs.HeldColumns.{Keyed, Begins, Joined, range_of};
ghost use Rattle.instructions.specs.declared.Argument.TheVariants.{Target};
ghost use Rattle.file_format.specs.Layout.{list};
ghost use Rattle.file_format.specs.Rows.{value, at, op, arg, argument_laid_out, argument_in_range, argument_named, argument_reaches, argument_forward, first_addresses};
ghost use Rattle.file_values.specs.HeldValues.{Near};
ghost use Rattle.file_code.specs.HeldCode.{is_whole, Cut, ArgumentTests, CodeTests, PricesKept};

use instructions::Argument;
use numbers::Range;

// What follows the first word of a line, which has e bytes, and the space after it; no bytes where nothing does.
pub fn after_word(line: &[u8], e: usize) -> &[u8]
    requires { e ≡ length (get_or (line_words line.now) 0 []) }
    ensures { (k : ℕ) → get_or (line_words result.now) k [] ≡ get_or (line_words line.now) (suc k) [] }
{
    if e < line.len() {
        return &line[e + 1..];
    }
    &line[..0]
}

// Whether a line is of three words and none is empty, where AT has e bytes, OP has f and ARG has g.
pub fn is_whole(line: &[u8], e: usize, f: usize, g: usize) -> bool
    requires { (e ≡ length (at line.now)) × (f ≡ length (op line.now)) × (g ≡ length (arg line.now)) }
    ensures { result ≡ is_whole (line_words line.now) }
{
    if e == 0 {
        return false;
    }
    if f == 0 {
        return false;
    }
    if g == 0 {
        return false;
    }
    line.len() - e - f - g == 2
}

// What the tests of rows 2, 3, 4, 6 and 13 come to on the words of a code line, or on its argument.
#[derive(Clone, Copy)]
pub struct Tested {
    pub layout: bool,
    pub range: bool,
    pub name: bool,
    pub target: bool,
    pub forward: bool,
}

// Row 2 on the argument w, of which n was read as a number.
fn argument_laid_out(a: Argument, w: &[u8], n: Option<i64>) -> bool
    requires { n ≡ clamped (numeral w.now) }
    ensures { result ≡ argument_laid_out w.now a }
{
    match a {
        Argument::Absent => text::same(w, b"-"),
        Argument::Target => file_values::is_spelt(n),
        Argument::Primitive => !text::same(w, b"-"),
        Argument::Within(_) => file_values::is_spelt(n),
    }
}

// Row 3 on an argument that was read as n.
fn argument_in_range(a: Argument, n: Option<i64>) -> bool
    requires { Near (range_of a) }
    ensures { (w : List ℕ) → n ≡ clamped (numeral w) → result ≡ argument_in_range w a }
{
    match a {
        Argument::Target => file_values::is_read_within(file_layout::addresses(), n),
        Argument::Within(r) => file_values::is_read_within(r, n),
        _ => true,
    }
}

// Row 4 on an argument, where `primitives` is the line of their names.
fn argument_named(primitives: &[u8], a: Argument, w: &[u8]) -> bool
    ensures { result ≡ argument_named (list primitives.now) w.now a }
{
    let Argument::Primitive = a else {
        return true;
    };
    file_layout::is_listed(w, primitives)
}

// Whether the number that was read is one of the `count` addresses from `first` on.
fn is_reached(first: i64, count: usize, n: Option<i64>) -> bool
    requires first_value { within first_addresses first ≡ true }
    requires count_bound { count ≤ 32768 }
    ensures { (w : List ℕ) → n ≡ clamped (numeral w) → result ≡ argument_reaches first count w Target }
{
    if count == 0 {
        return false;
    }
    let last = first + ((count - 1) as i64);
    file_values::is_read_within(
        Range {
            low: first,
            high: last,
        },
        n,
    )
}

// Row 6 on an argument that was read as n, where the code has `count` addresses from `first` on.
fn argument_reaches(first: i64, count: usize, a: Argument, n: Option<i64>) -> bool
    requires first_value { within first_addresses first ≡ true }
    requires count_bound { count ≤ 32768 }
    ensures { (w : List ℕ) → n ≡ clamped (numeral w) → result ≡ argument_reaches first count w a }
{
    let Argument::Target = a else {
        return true;
    };
    is_reached(first, count, n)
}

// Row 13 on an argument of code line k that was read as n, where the first address is `first`.
fn argument_forward(first: i64, k: usize, a: Argument, n: Option<i64>) -> bool
    requires first_value { within first_addresses first ≡ true }
    requires k_bound { k ≤ 32768 }
    ensures { (w : List ℕ) → n ≡ clamped (numeral w) → result ≡ argument_forward (first +ℤ pos k) w a }
{
    let Argument::Target = a else {
        return true;
    };
    let own = first + (k as i64);
    file_values::is_read_above(own, n)
}

// The argument w of the kind at a place, which takes a, on code line k, where the code has `count` addresses from `first` on: no test fails
// where OP is unknown. The word is read as a number once.
fn test_argument(
    first: i64,
    count: usize,
    primitives: &[u8],
    k: usize,
    kind: Option<usize>,
    a: Argument,
    w: &[u8],
) -> Tested
    requires first_value { within first_addresses first ≡ true }
    requires count_bound { (count ≤ 32768) × (k ≤ 32768) }
    requires by_index { (i : ℕ) → kind ≡ Some i → (i < 61) × (a ≡ (kind_at i).argument) }
    ensures { ArgumentTests first count (list primitives.now) k w.now kind result }
{
    let Some(_) = kind else {
        return Tested {
            layout: true,
            range: true,
            name: true,
            target: true,
            forward: true,
        };
    };
    let n = text_decimals::read_numeral(w);
    let layout = argument_laid_out(a, w, n);
    let range = argument_in_range(a, n);
    let name = argument_named(primitives, a, w);
    let target = argument_reaches(first, count, a, n);
    let forward = argument_forward(first, k, a, n);
    Tested {
        layout: layout,
        range: range,
        name: name,
        target: target,
        forward: forward,
    }
}

fn both(a: bool, b: bool) -> bool
    ensures { result ≡ (a && b) }
{
    if a { b } else { false }
}

// Whether a kind was found.
fn is_known(kind: Option<usize>) -> bool
    ensures { (w : List ℕ) → kind ≡ place_among w kind_names → result ≡ among w kind_names }
{
    let Some(_) = kind else {
        return false;
    };
    true
}

// Whether the address that was read as n is that of code line k.
fn is_address(first: i64, k: usize, n: Option<i64>) -> bool
    requires first_value { within first_addresses first ≡ true }
    requires k_bound { k ≤ 32768 }
    ensures { (w : List ℕ) → n ≡ clamped (numeral w) → result ≡ same (value w) (first +ℤ pos k) }
{
    let own = first + (k as i64);
    file_values::is_read_within(
        Range {
            low: own,
            high: own,
        },
        n,
    )
}

// Code line k with the address `own` and the argument w, whose OP names the kind at a place, which takes a, where the code has `count`
// addresses from `first` on and `primitives` is the line of their names.
pub fn test_code(
    first: i64,
    count: usize,
    primitives: &[u8],
    k: usize,
    kind: Option<usize>,
    a: Argument,
    own: &[u8],
    w: &[u8],
) -> Tested
    requires first_value { within first_addresses first ≡ true }
    requires count_bound { (count ≤ 32768) × (k ≤ 32768) }
    requires by_index { (i : ℕ) → kind ≡ Some i → (i < 61) × (a ≡ (kind_at i).argument) }
    ensures { (line : List ℕ) → own.now ≡ at line → w.now ≡ arg line → kind ≡ place_among (op line) kind_names → CodeTests first count (list primitives.now) k line result }
{
    let argument = test_argument(first, count, primitives, k, kind, a, w);
    let n = text_decimals::read_numeral(own);
    let spelt = both(k < 1024, file_values::is_spelt(n));
    let layout = both(spelt, argument.layout);
    let range = both(
        file_values::is_read_within(file_layout::at_range(k), n),
        argument.range,
    );
    let known = both(is_address(first, k, n), is_known(kind));
    let name = both(known, argument.name);
    Tested {
        layout: layout,
        range: range,
        name: name,
        target: argument.target,
        forward: argument.forward,
    }
}

// The words of a code line: the kind that OP names, by its place, and how many bytes AT, OP and ARG have.
#[derive(Clone, Copy)]
pub struct CodeWords {
    pub kind: Option<usize>,
    pub at: usize,
    pub op: usize,
    pub arg: usize,
}

// Cuts a code line into its words. The last three are the tables of `instructions::kind_in`.
pub fn cut_code(line: &[u8], keyed: &[u8; 256], starts: &[u16; 62], names: &[u8]) -> CodeWords
    requires { Keyed keyed.now × Begins starts.now × Joined names.now }
    ensures { Cut line.now result }
{
    let e = text::piece_length(line, b' ');
    let rest = after_word(line, e);
    let f = text::piece_length(rest, b' ');
    let last = after_word(rest, f);
    let g = text::piece_length(last, b' ');
    let kind = instructions::kind_in(keyed, starts, names, &rest[..f]);
    CodeWords {
        kind: kind,
        at: e,
        op: f,
        arg: g,
    }
}

// 1 for yes, 2 for no.
fn one_or_two(yes: bool) -> u8
    ensures { result ≡ cond yes 1 2 }
{
    if yes { 1 } else { 2 }
}

// Row 5 on a code line whose OP is `op`, the name of the kind at a place, and `kinds` the line of the kinds that have a price. What the search
// found of a kind is kept: 1 where it has a price, 2 where it has none, and 0 as long as it was not looked for.
pub fn code_priced(kinds: &[u8], kept: &mut [u8; 61], kind: Option<usize>, op: &[u8]) -> bool
    requires kind_value { kind ≡ place_among op.now kind_names }
    requires prices_kept { PricesKept (list kinds.now) kept.old }
    ensures priced { result ≡ among op.now (list kinds.now) }
    ensures kept { PricesKept (list kinds.now) kept.new }
{
    let Some(k) = kind else {
        return file_layout::is_listed(op, kinds);
    };
    let known = kept[k];
    if 0 < known {
        return known == 1;
    }
    let listed = file_layout::is_listed(op, kinds);
    kept[k] = one_or_two(listed);
    listed
}
