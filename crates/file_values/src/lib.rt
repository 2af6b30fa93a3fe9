// What a word of a line of values says. The meaning is in specs/ here and of `file_format`.
#![tactic(auto)]

ghost use Rattle.std.specs.Prelude.{◌≡◌, List, ℕ, ◌<◌, ◌≤◌, ltb, nat_abs};
ghost use Rattle.std.specs.Int.Signed.{mag, lt_z};
ghost use Rattle.text.specs.Text.{lines};
ghost use Rattle.text_decimals.specs.Decimal.{numeral};
ghost use Rattle.text_decimals.specs.HeldMagnitude.{most, clamp, clamped};
ghost use Rattle.numbers.specs.Numbers.{naturals, within, numbers};
ghost use Rattle.cells.specs.Cells.{exactly, between, handle};
ghost use Rattle.file_format.specs.Rows.{is_numeral, value, known_of, block_of, span_of, spanned, cell_word, is_cell, handles, span_in_range, cell_in_range, is_single, cell_present};
ghost use Rattle.file_format.specs.Routine.{inside, natural_in, first_address, cell_of};
ghost use Rattle.file_values.specs.HeldValues.{Near, NaturalRange, clamped_cell};

use cells::Cell;
use file_format::CellWord;
use numbers::Range;

// ---- numbers

// Whether a number is spelt, by what was read of a word.
pub fn is_spelt(n: Option<i64>) -> bool
    ensures { (w : List ℕ) → n ≡ clamped (numeral w) → result ≡ is_numeral (numeral w) }
{
    match n {
        None => false,
        Some(_) => true,
    }
}

// Whether w spells a number.
pub fn is_numeral(w: &[u8]) -> bool
    ensures { result ≡ is_numeral (numeral w.now) }
{
    is_spelt(text_decimals::read_numeral(w))
}

// What is held of the number that was read; 0 where none is spelt.
fn value_read(n: Option<i64>) -> i64
    ensures { (w : List ℕ) → n ≡ clamped (numeral w) → result ≡ clamp (value w) }
{
    match n {
        None => 0,
        Some(z) => z,
    }
}

// Whether the number that was read is within a range.
pub fn is_read_within(range: Range, n: Option<i64>) -> bool
    requires { Near range }
    ensures { (w : List ℕ) → n ≡ clamped (numeral w) → result ≡ within range (value w) }
{
    numbers::within(range, value_read(n))
}

// Whether the number that w spells is within a range.
pub fn is_within(range: Range, w: &[u8]) -> bool
    requires { Near range }
    ensures { result ≡ within range (value w.now) }
{
    is_read_within(range, text_decimals::read_numeral(w))
}

// Whether the number that was read is above another.
pub fn is_read_above(low: i64, n: Option<i64>) -> bool
    requires { mag low < most }
    ensures { (w : List ℕ) → n ≡ clamped (numeral w) → result ≡ lt_z low (value w) }
{
    low < value_read(n)
}

// A number of a range; one outside it counts 0.
fn inside(range: Range, z: i64) -> i64
    ensures { result ≡ inside range z }
{
    if numbers::within(range, z) { z } else { 0 }
}

pub fn number_in(range: Range, w: &[u8]) -> i64
    requires { Near range }
    ensures { result ≡ inside range (value w.now) }
{
    inside(range, value_read(text_decimals::read_numeral(w)))
}

// A natural number of a range.
pub fn natural_of(range: Range, w: &[u8]) -> u32
    requires { NaturalRange range }
    ensures { result ≡ natural_in range w.now }
{
    let z = number_in(range, w);
    z as u32
}

// The same, by the ends of the range.
pub fn natural_in(low: u32, high: u32, w: &[u8]) -> u32
    ensures { result ≡ natural_in (naturals low high) w.now }
{
    natural_of(
        Range {
            low: low as i64,
            high: high as i64,
        },
        w,
    )
}

// The first address, that "of the first AT line", where `body` has the lines after the layout.
pub fn first_address(body: &[u8]) -> usize
    ensures { result ≡ first_address (lines body.now) }
{
    let line = text::first_line(body);
    let at = text::word_at(line, 0);
    natural_of(file_layout::first_addresses(), at) as usize
}

// ---- cells

fn known_word(n: Option<i64>) -> CellWord
    ensures { result ≡ known_of n }
{
    match n {
        None => CellWord::Wrong,
        Some(z) => CellWord::Known(z),
    }
}

fn block_word(n: Option<i64>) -> CellWord
    ensures { result ≡ block_of n }
{
    match n {
        None => CellWord::Wrong,
        Some(z) => CellWord::Block(z),
    }
}

fn span_word(m: Option<i64>, n: Option<i64>) -> CellWord
    ensures { result ≡ span_of m n }
{
    match m {
        None => CellWord::Wrong,
        Some(lo) => match n {
            None => CellWord::Wrong,
            Some(hi) => CellWord::Span(lo, hi),
        },
    }
}

// A number, or two around the first full stop and one behind it.
fn spanned(w: &[u8]) -> CellWord
    ensures { result ≡ clamped_cell (spanned w.now) }
{
    let n = text::piece_length(w, b'.');
    let next = n + 1;
    if next >= w.len() {
        return known_word(text_decimals::read_numeral(w));
    }
    if w[n] != b'.' {
        return known_word(text_decimals::read_numeral(w));
    }
    if w[next] != b'.' {
        return known_word(text_decimals::read_numeral(w));
    }
    let after = n + 2;
    span_word(
        text_decimals::read_numeral(&w[..n]),
        text_decimals::read_numeral(&w[after..]),
    )
}

// What w says where a cell is wanted: "number, `?` for unknown, `#k` for block k", `lo..hi`.
pub fn cell_word(w: &[u8]) -> CellWord
    ensures { result ≡ clamped_cell (cell_word w.now) }
{
    if text::same(w, b"?") {
        return CellWord::Unknown;
    }
    if w.len() == 0 {
        return CellWord::Wrong;
    }
    if w[0] == b'#' {
        return block_word(text_decimals::read_numeral(&w[1..]));
    }
    spanned(w)
}

pub fn is_cell(w: &[u8]) -> bool
    ensures { result ≡ is_cell (cell_word w.now) }
{
    if let CellWord::Wrong = cell_word(w) {
        return false;
    }
    true
}

// "lo above hi is refusal 3"
fn span_in_range(lo: i64, hi: i64) -> bool
    ensures { result ≡ span_in_range lo hi }
{
    if !numbers::within(numbers::number_range(), lo) {
        return false;
    }
    if !numbers::within(numbers::number_range(), hi) {
        return false;
    }
    lo <= hi
}

pub fn cell_in_range(w: &[u8]) -> bool
    ensures { result ≡ cell_in_range (cell_word w.now) }
{
    match cell_word(w) {
        CellWord::Known(z) => numbers::within(numbers::number_range(), z),
        CellWord::Block(k) => numbers::within(file_layout::handles(), k),
        CellWord::Span(lo, hi) => span_in_range(lo, hi),
        _ => true,
    }
}

// Whether w is not `?` and not "a range of more than one number".
pub fn is_single(w: &[u8]) -> bool
    ensures { result ≡ is_single (cell_word w.now) }
{
    match cell_word(w) {
        CellWord::Unknown => false,
        CellWord::Span(lo, hi) => {
            if span_in_range(lo, hi) {
                lo == hi
            } else {
                true
            }
        }
        _ => true,
    }
}

// Whether k is less than n away from 0.
fn is_nearer(k: i64, n: usize) -> bool
    requires { n ≤ most }
    ensures { result ≡ ltb (nat_abs k) n }
{
    let m = n as i64;
    if k < 0 { -m < k } else { k < m }
}

// Whether a handle is one of the n blocks that are present.
pub fn cell_present(n: usize, w: &[u8]) -> bool
    requires { n ≤ most }
    ensures { result ≡ cell_present n (cell_word w.now) }
{
    let CellWord::Block(k) = cell_word(w) else {
        return true;
    };
    is_nearer(k, n)
}

fn number_cell(z: i64) -> Cell
    ensures { result ≡ exactly (inside numbers z) }
{
    let n = inside(numbers::number_range(), z);
    cells::exactly(n as i32)
}

fn span_cell(lo: i64, hi: i64) -> Cell
    ensures { result ≡ between (inside numbers lo) (inside numbers hi) }
{
    let l = inside(numbers::number_range(), lo);
    let h = inside(numbers::number_range(), hi);
    cells::between(l as i32, h as i32)
}

fn handle_cell(k: i64) -> Cell
    ensures { result ≡ handle (nat_abs (inside handles k)) }
{
    let n = inside(file_layout::handles(), k);
    cells::handle(n as u8)
}

// The cell that w says.
pub fn cell_of(w: &[u8]) -> Cell
    ensures { result ≡ cell_of (cell_word w.now) }
{
    match cell_word(w) {
        CellWord::Wrong => cells::exactly(0),
        CellWord::Unknown => cells::unknown(),
        CellWord::Known(z) => number_cell(z),
        CellWord::Block(k) => handle_cell(k),
        CellWord::Span(lo, hi) => span_cell(lo, hi),
    }
}
