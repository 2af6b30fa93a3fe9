// The file of a seed, written into lent memory. The meaning is in specs/ of `generate_file`.
#![tactic(auto)]

ghost use Rattle.std.specs.Prelude.{◌≡◌, true, cond, ◌++◌, suc, ◌+◌, ◌*◌, ◌%◌, ◌≤◌, ◌<◌, ltb, length, drop};
ghost use Rattle.text_decimals.specs.Memory.{over};
ghost use Rattle.text_decimals.specs.Decimal.{decimal};
ghost use Rattle.instructions.specs.Kinds.{kind_at};
ghost use Rattle.instructions.specs.declared.Argument.TheVariants.{Target};
ghost use Rattle.answers.specs.Answers.{memory, answer_of};
ghost use Rattle.generate_file.specs.declared.Column.TheVariants.{Limits, Extras};
ghost use Rattle.generate_file.specs.Draws.{next, after};
ghost use Rattle.generate_file.specs.Words.{below, number_in, spread, handle_word, number_word, open_word, word, break, is_going, row};
ghost use Rattle.generate_file.specs.File.{count, target, argument, line_of, code_from, accesses, plain_cells, cells_for, later, limit_lines, kind_prices, primitive_prices, prices, start, file};
ghost use Rattle.generate_file.specs.Held.{sound};
ghost use Rattle.generate_entry.specs.Answers.{generate_answer};

use generate_file::Column;
use instructions::Argument;
use numbers::Range;
use refusals::Refusal;

// One round.
fn next(s: u32) -> u32
    ensures { result ≡ next s }
{
    let a = s ^ (s << 13);
    let b = a ^ (a >> 17);
    b ^ (b << 5)
}

// The state after i rounds.
fn after(i: usize, seed: u32) -> u32
    ensures { result ≡ after i seed }
{
    let mut s = seed;
    for _ in 0..i {
        s = next(s);
    }
    s
}

// A number below n from draw d.
fn below(n: u32, d: u32) -> u32
    requires { 0 < n }
    ensures { result ≡ below n d }
{
    d % n / (d / n % 8 + 1)
}

// A number of a range from draw d.
fn number_in(range: Range, d: u32) -> i32
    requires { sound range ≡ true }
    ensures { result ≡ number_in range d }
{
    let low = range.low;
    let high = range.high;
    let size = (high - low + 1) as u32;
    let more = below(size, d) as i64;
    (low + more) as i32
}

// How many numbers there are under place i of line 2.
fn limit_spread(i: usize) -> u32
    ensures { result ≡ spread Limits i }
{
    if i == 0 {
        return 1000;
    }
    100000
}

// Under place i of line 6.
fn extra_spread(i: usize) -> u32
    ensures { result ≡ spread Extras i }
{
    if i == 53 {
        return 100;
    }
    if i == 54 {
        return 100;
    }
    1
}

// Puts the number under place i of a column whose numbers are `least` and one below `spread`.
fn put_amount(out: &mut [u8], at: usize, least: u32, spread: u32, d: u32) -> usize
    requires { (least ≤ 1) × (0 < spread) × (spread ≤ 100000) × (at + 12 ≤ length out.old) }
    ensures value { result ≡ at + length (decimal (least + below spread d)) }
    ensures out_after { out.new ≡ over out.old at (decimal (least + below spread d)) }
{
    text_decimals::put_decimal(out, at, (least + below(spread, d)) as u64)
}

// Puts a handle over out from `at` on, and answers where it ends.
fn put_handle(out: &mut [u8], at: usize, d: u32) -> usize
    requires { at + 12 ≤ length out.old }
    ensures value { result ≡ at + length (handle_word d) }
    ensures out_after { out.new ≡ over out.old at (handle_word d) }
{
    let e = text_decimals::put(out, at, b"#");
    text_decimals::put_decimal(out, e, (d % 2) as u64)
}

// Puts a cell that is a number.
fn put_number(out: &mut [u8], at: usize, d: u32) -> usize
    requires { at + 12 ≤ length out.old }
    ensures value { result ≡ at + length (number_word d) }
    ensures out_after { out.new ≡ over out.old at (number_word d) }
{
    if d / 2 % 2 == 0 {
        return text_decimals::put_decimal(out, at, (d / 4 % 8) as u64);
    }
    let z = number_in(numbers::number_range(), d);
    text_decimals::put_integer(out, at, z)
}

// Puts a cell that may be unknown.
fn put_open(out: &mut [u8], at: usize, d: u32) -> usize
    requires { at + 12 ≤ length out.old }
    ensures value { result ≡ at + length (open_word d) }
    ensures out_after { out.new ≡ over out.old at (open_word d) }
{
    if d % 2 == 0 {
        return text_decimals::put(out, at, b"?");
    }
    put_number(out, at, d)
}

// Puts the word at place i of a column, from draw d.
fn put_word(out: &mut [u8], at: usize, column: Column, i: usize, d: u32) -> usize
    requires { (i < 61) × (at + 12 ≤ length out.old) }
    ensures value { result ≡ at + length (word column i d) }
    ensures out_after { out.new ≡ over out.old at (word column i d) }
{
    match column {
        Column::Names => instructions::put_name(out, at, i),
        Column::Handles => put_handle(out, at, d),
        Column::Known => put_number(out, at, d),
        Column::Open => put_open(out, at, d),
        Column::Limits => put_amount(out, at, 1, limit_spread(i), d),
        Column::Cycles => put_amount(out, at, 0, 1000, d),
        Column::Words => put_amount(out, at, 0, 16, d),
        Column::Extras => put_amount(out, at, 0, extra_spread(i), d),
    }
}

// Puts what follows a word after which n of its row stand.
fn put_break(out: &mut [u8], at: usize, n: usize, follows: bool) -> usize
    requires { at + 1 ≤ length out.old }
    ensures value { result ≡ at + length (break (is_going n follows)) }
    ensures out_after { out.new ≡ over out.old at (break (is_going n follows)) }
{
    if 0 < n {
        return text_decimals::put(out, at, b" ");
    }
    if follows {
        return text_decimals::put(out, at, b" ");
    }
    text_decimals::put(out, at, b"\n")
}

// Puts a row of words, by the draws after the state s, and answers where it ends.
fn put_row(out: &mut [u8], at: usize, column: Column, count: usize, follows: bool, s: u32) -> usize
    requires { (count ≤ 61) × (at + 13 * count ≤ length out.old) }
    ensures value { result ≡ at + length (row column count follows s) }
    ensures out_after { out.new ≡ over out.old at (row column count follows s) }
    ensures upper_bound { result ≤ at + 13 * count }
{
    let mut e = at;
    let mut t = s;
    for i in 0..count {
        let d = next(t);
        let f = put_word(out, e, column, i, d);
        e = put_break(out, f, count - i - 1, follows);
        t = d;
    }
    e
}

// The target of line k, from draw d.
fn target(n: usize, k: usize, d: u32) -> usize
    requires { (k < n) × (n < 200) }
    ensures { result ≡ target n k d }
{
    let left = (n - k) as u32;
    if d / left % 16 == 0 {
        return n - (d % left) as usize;
    }
    n
}

// Puts the argument of line k, of a kind, from draw d.
fn put_argument(out: &mut [u8], at: usize, n: usize, k: usize, kind: usize, d: u32) -> usize
    requires { (kind < 61) × (n < 200) × ((kind_at kind).argument ≡ Target → k < n) × (at + 12 ≤ length out.old) }
    ensures value { result ≡ at + length (argument n k d (kind_at kind).argument) }
    ensures out_after { out.new ≡ over out.old at (argument n k d (kind_at kind).argument) }
{
    match instructions::argument_at(kind) {
        Argument::Absent => text_decimals::put(out, at, b"-"),
        Argument::Target => text_decimals::put_decimal(out, at, target(n, k, d) as u64),
        Argument::Primitive => {
            let name = text::word_at(b"READ WRITE CLOCK NOISE", (d % 4) as usize);
            text_decimals::put(out, at, name)
        }
        Argument::Within(range) => {
            let z = number_in(range, d);
            text_decimals::put_integer(out, at, z)
        }
    }
}

// Puts line k, of a kind, with its argument from draw d.
fn put_line(out: &mut [u8], at: usize, n: usize, k: usize, kind: usize, d: u32) -> usize
    requires { (kind < 61) × (k < 200) × (n < 200) × ((kind_at kind).argument ≡ Target → k < n) × (at + 30 ≤ length out.old) }
    ensures value { result ≡ at + length (line_of n k kind d) }
    ensures out_after { out.new ≡ over out.old at (line_of n k kind d) }
{
    let a = text_decimals::put_decimal(out, at, k as u64);
    let b = text_decimals::put(out, a, b" ");
    let c = instructions::put_name(out, b, kind);
    let e = text_decimals::put(out, c, b" ");
    let f = put_argument(out, e, n, k, kind, d);
    text_decimals::put(out, f, b"\n")
}

// The kind of line k, where n lines stand before the closing STOP and d is the draw of the line.
fn kind_of(n: usize, k: usize, d: u32) -> usize
    ensures { result ≡ cond (ltb k n) (d % 61) 60 }
{
    if k < n {
        return (d % 61) as usize;
    }
    60
}

// Puts the lines of code, and answers where they end.
fn put_code(out: &mut [u8], at: usize, seed: u32, n: usize) -> usize
    requires { (n ≡ count seed) × (n < 200) × (at + 30 * suc n ≤ length out.old) }
    ensures value { result ≡ at + length (code_from seed 0 (suc n)) }
    ensures out_after { out.new ≡ over out.old at (code_from seed 0 (suc n)) }
{
    let mut e = at;
    let mut t = next(seed);
    let mut u = after(n + 1, seed);
    for k in 0..=n {
        let c = next(t);
        let d = next(u);
        let kind = kind_of(n, k, c);
        e = put_line(out, e, n, k, kind, d);
        t = c;
        u = d;
    }
    e
}

// Cells that are no handles.
fn plain_cells(seed: u32) -> Column
    ensures { result ≡ plain_cells seed }
{
    if next(seed) / 200 % 2 == 1 {
        return Column::Open;
    }
    Column::Known
}

// Whether a kind reads or sets a field.
fn accesses(kind: usize) -> bool
    ensures { result ≡ accesses kind }
{
    if kind < 42 {
        return false;
    }
    kind <= 51
}

// The cells that the kind of line k calls for.
fn cells_for(seed: u32, n: usize, k: usize) -> Column
    requires { (n ≡ count seed) × (k < 2) }
    ensures { result ≡ cells_for seed k }
{
    let kind = kind_of(n, k, after(k + 2, seed));
    if accesses(kind) {
        return Column::Handles;
    }
    plain_cells(seed)
}

// Draw i after those of the kinds and the arguments.
fn later(seed: u32, n: usize, i: usize) -> u32
    requires { (n ≡ count seed) × (n < 200) × (i < 300) }
    ensures { result ≡ later seed i }
{
    after(1 + 2 * n + i, seed)
}

// Puts a row of words, by the draws from the one after `later` i on.
fn put_values(
    out: &mut [u8],
    at: usize,
    column: Column,
    words: usize,
    follows: bool,
    seed: u32,
    n: usize,
    i: usize,
) -> usize
    requires { (n ≡ count seed) × (n < 200) × (i < 300) × (words ≤ 61) × (at + 13 * words ≤ length out.old) }
    ensures value { result ≡ at + length (row column words follows (later seed i)) }
    ensures out_after { out.new ≡ over out.old at (row column words follows (later seed i)) }
    ensures upper_bound { result ≤ at + 13 * words }
{
    let s = later(seed, n, i);
    put_row(out, at, column, words, follows, s)
}

// Puts lines 1 to 3 at the start of out, and answers where they end.
fn put_limits(out: &mut [u8], seed: u32, n: usize) -> usize
    requires { (n ≡ count seed) × (n < 200) × (32768 ≤ length out.old) }
    ensures value { result ≡ 0 + length (limit_lines seed) }
    ensures out_after { out.new ≡ over out.old 0 (limit_lines seed) }
    ensures upper_bound { result ≤ 900 }
{
    let l1 = text_decimals::put(out, 0, b"BUDGET TICK\n");
    let l2 = put_values(out, l1, Column::Limits, 2, false, seed, n, 0);
    put_row(out, l2, Column::Names, 61, false, 0)
}

// Puts lines 4 to 6 over out from `at` on, and answers where they end.
fn put_kinds(out: &mut [u8], at: usize, seed: u32, n: usize) -> usize
    requires { (n ≡ count seed) × (n < 200) × (at + 2400 ≤ length out.old) }
    ensures value { result ≡ at + length (kind_prices seed) }
    ensures out_after { out.new ≡ over out.old at (kind_prices seed) }
    ensures upper_bound { result ≤ at + 2400 }
{
    let l4 = put_values(out, at, Column::Cycles, 61, false, seed, n, 2);
    let l5 = put_values(out, l4, Column::Words, 61, false, seed, n, 63);
    put_values(out, l5, Column::Extras, 61, false, seed, n, 124)
}

// Puts lines 7 to 9 over out from `at` on, and answers where they end.
fn put_primitives(out: &mut [u8], at: usize, seed: u32, n: usize) -> usize
    requires { (n ≡ count seed) × (n < 200) × (at + 200 ≤ length out.old) }
    ensures value { result ≡ at + length (primitive_prices seed) }
    ensures out_after { out.new ≡ over out.old at (primitive_prices seed) }
{
    let l7 = text_decimals::put(out, at, b"READ WRITE CLOCK NOISE\n");
    let l8 = put_values(out, l7, Column::Cycles, 4, false, seed, n, 185);
    put_values(out, l8, Column::Words, 4, false, seed, n, 189)
}

// Puts lines 1 to 9 at the start of out, and answers where they end.
fn put_prices(out: &mut [u8], seed: u32, n: usize) -> usize
    requires { (n ≡ count seed) × (n < 200) × (32768 ≤ length out.old) }
    ensures value { result ≡ 0 + length (prices seed) }
    ensures out_after { out.new ≡ over out.old 0 (prices seed) }
{
    let a = put_limits(out, seed, n);
    let b = put_kinds(out, a, seed, n);
    put_primitives(out, b, seed, n)
}

// Puts lines 10 to 13 over out from `at` on, and answers where they end.
fn put_start(out: &mut [u8], at: usize, seed: u32, n: usize) -> usize
    requires { (n ≡ count seed) × (n < 200) × (at + 1200 ≤ length out.old) }
    ensures value { result ≡ at + length (start seed) }
    ensures out_after { out.new ≡ over out.old at (start seed) }
{
    let first = cells_for(seed, n, 0);
    let second = cells_for(seed, n, 1);
    let plain = plain_cells(seed);
    let l10 = text_decimals::put(
        out,
        at,
        b"ACCU S0 S1 S2 S3 S4 S5 S6 S7 S8 S9 S10 S11 S12 S13 S14 S15 S16 S17 S18 S19 S20 S21 S22 S23 S24 S25 S26 S27 S28 S29 S30 S31\n",
    );
    let accu = put_values(out, l10, first, 1, true, seed, n, 193);
    let l11 = put_values(out, accu, second, 32, false, seed, n, 194);
    let l12 = text_decimals::put(
        out,
        l11,
        b"B0.0 B0.1 B0.2 B0.3 B0.4 B0.5 B0.6 B0.7 B0.8 B0.9 B0.10 B0.11 B0.12 B0.13 B0.14 B0.15 B1.0 B1.1 B1.2 B1.3 B1.4 B1.5 B1.6 B1.7 B1.8 B1.9 B1.10 B1.11 B1.12 B1.13 B1.14 B1.15\n",
    );
    let block = put_values(out, l12, plain, 16, true, seed, n, 226);
    put_values(out, block, Column::Handles, 16, false, seed, n, 242)
}

// Puts the file of a seed at the start of out, and answers its length.
fn put_file(out: &mut [u8], seed: u32) -> usize
    requires { 32768 ≤ length out.old }
    ensures value { result ≡ length (file seed) }
    ensures out_after { out.new ≡ file seed ++ drop (length (file seed)) out.old }
{
    let n = (next(seed) % 200) as usize;
    let a = put_prices(out, seed, n);
    let b = put_start(out, a, seed, n);
    let c = text_decimals::put(out, b, b"AT OP ARG\n");
    put_code(out, c, seed, n)
}

// The routine file of a seed in the lent memory, or a refusal.
pub fn generate(seed: u32, out: &mut [u8]) -> Result<usize, Refusal>
    ensures value { result ≡ answer_of (generate_answer seed (length out.old)) }
    ensures out_after { out.new ≡ memory (generate_answer seed (length out.old)) out.old }
{
    if out.len() < 32768 {
        return Err(Refusal::ReportMemory);
    }
    if seed == 0 {
        return Err(Refusal::OutOfRange(0));
    }
    let n = put_file(out, seed);
    Ok(n)
}
