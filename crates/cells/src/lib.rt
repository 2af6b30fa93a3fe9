// Cells, and the operations on them. The meaning is in specs/.
#![tactic(auto)]

ghost use Rattle.std.specs.Prelude.{◌≡◌, ◌<◌};
ghost use Rattle.numbers.specs.Numbers.{wrap, bit, numbers};
ghost use Rattle.cells.specs.Cells.{high, exactly, unknown, between, handle, calculate₁, calculate₂, results, least₁, always, negated, judged, wider, range₂, compare_handles, combine_handles, operate₁, operate₂, condition, block};
ghost use Rattle.cells.specs.HeldSmall.{Small};

use numbers::Comparison;

// "A cell holds a number, an unknown number or a block handle"; "A start or block cell may be `lo..hi`": a range is its least number and
// how many more there are above it.
#[derive(Clone, Copy)]
pub enum Value {
    Range(i32, u32),
    Handle(u8),
}

#[derive(Clone, Copy)]
pub struct Cell {
    pub value: Value,
}

// "OFFSETINT i adds i. .. NEGINT negates. BOOLNOT gives 1 minus the accumulator."
#[derive(Clone, Copy)]
pub enum Unary {
    Offset,
    Negate,
    Complement,
}

// "ADDINT, SUBINT, EQ, NEQ, LTINT, LEINT, GTINT, GEINT"
#[derive(Clone, Copy)]
pub enum Binary {
    Add,
    Subtract,
    Compare(Comparison),
}

// A branch condition.
#[derive(Clone, Copy)]
pub enum Condition {
    IsZero,
    IsNonzero,
    IsUnknown,
}

// The cell of a number, which wraps.
pub fn exactly(n: i32) -> Cell
    ensures { result ≡ exactly n }
{
    Cell {
        value: Value::Range(numbers::narrow(n as i64), 0),
    }
}

// "A `?` is the whole range."
pub fn unknown() -> Cell
    ensures { result ≡ unknown }
{
    Cell {
        value: Value::Range(numbers::LOWEST, numbers::OTHERS),
    }
}

// The numbers from `low` to `high`.
pub fn between(low: i32, high: i32) -> Cell
    ensures { result ≡ between low high }
{
    if high < low {
        return Cell {
            value: Value::Range(low, 0),
        };
    }
    let more = high as i64 - low as i64;
    Cell {
        value: Value::Range(low, more as u32),
    }
}

// The handle of block k.
pub fn handle(k: u8) -> Cell
    ensures { result ≡ handle k }
{
    Cell {
        value: Value::Handle(k),
    }
}

// The same cell, part by part: a copy of the whole is one wide read, which waits where the parts were written one by one.
pub fn same(c: Cell) -> Cell
    ensures { result ≡ c }
{
    let value = c.value;
    match value {
        Value::Range(low, more) => Cell {
            value: Value::Range(low, more),
        },
        Value::Handle(k) => handle(k),
    }
}

// The wrapped result of an operation on numbers.
fn calculate1(u: Unary, i: i32, n: i32) -> i32
    ensures { result ≡ wrap (calculate₁ u i n) }
{
    match u {
        Unary::Offset => numbers::wrapping_add(n, i),
        Unary::Negate => numbers::negate(n),
        Unary::Complement => numbers::wrapping_sub(1, n),
    }
}

fn calculate2(b: Binary, m: i32, n: i32) -> i32
    ensures { result ≡ wrap (calculate₂ b m n) }
{
    match b {
        Binary::Add => numbers::wrapping_add(m, n),
        Binary::Subtract => numbers::wrapping_sub(m, n),
        Binary::Compare(c) => numbers::compare(c, m, n),
    }
}

// The greatest number of a range.
pub fn high(low: i32, more: u32) -> i64
    ensures { result ≡ high low more }
{
    low as i64 + more as i64
}

// "the least to the greatest result, or the whole range if some result would wrap"
fn results(low: i64, more: u64) -> Cell
    requires { Small low more }
    ensures { result ≡ results low more }
{
    if low < numbers::LOWEST as i64 {
        return unknown();
    }
    if low + more as i64 > numbers::HIGHEST as i64 {
        return unknown();
    }
    Cell {
        value: Value::Range(low as i32, more as u32),
    }
}

// The least result of an operation on a range.
fn least1(u: Unary, i: i32, low: i32, more: u32) -> i64
    ensures { result ≡ least₁ u i low more }
{
    match u {
        Unary::Offset => low as i64 + i as i64,
        Unary::Negate => -high(low, more),
        Unary::Complement => 1 - high(low, more),
    }
}

// "Sums, differences and negations of single numbers stay exact and wrap"; with a handle it is stuck.
pub fn operate1(u: Unary, i: i32, a: Cell) -> Option<Cell>
    ensures { result ≡ operate₁ u i a }
{
    let value = a.value;
    match value {
        Value::Range(low, more) => {
            if more == 0 {
                Some(Cell {
                    value: Value::Range(calculate1(u, i, low), 0),
                })
            } else {
                Some(results(least1(u, i, low, more), more as u64))
            }
        }
        Value::Handle(_) => None,
    }
}

// The cell of 1 where b is true, else that of 0.
fn truth(b: bool) -> Cell
    ensures { result ≡ exactly (bit b) }
{
    if b { exactly(1) } else { exactly(0) }
}

// Whether a comparison holds for every pair of a number from l to h and one from m to n.
fn always(c: Comparison, l: i64, h: i64, m: i64, n: i64) -> bool
    ensures { result ≡ always c l h m n }
{
    match c {
        Comparison::Equal => l == n && h == m,
        Comparison::Unequal => h < m || n < l,
        Comparison::Less => h < m,
        Comparison::AtMost => h <= m,
        Comparison::Greater => n < l,
        Comparison::AtLeast => n <= l,
    }
}

fn negated(c: Comparison) -> Comparison
    ensures { result ≡ negated c }
{
    match c {
        Comparison::Equal => Comparison::Unequal,
        Comparison::Unequal => Comparison::Equal,
        Comparison::Less => Comparison::AtLeast,
        Comparison::AtMost => Comparison::Greater,
        Comparison::Greater => Comparison::AtMost,
        Comparison::AtLeast => Comparison::Less,
    }
}

// "1 if it holds for every pair of numbers in the two ranges, 0 if for none, else 0 to 1"
fn judged(c: Comparison, l: i64, h: i64, m: i64, n: i64) -> Cell
    ensures { result ≡ judged c l h m n }
{
    if always(c, l, h, m, n) {
        return exactly(1);
    }
    if always(negated(c), l, h, m, n) {
        return exactly(0);
    }
    Cell {
        value: Value::Range(0, 1),
    }
}

// An operation on two ranges, not both of one number.
fn wider(b: Binary, low: i32, more: u32, low2: i32, more2: u32) -> Cell
    ensures { result ≡ wider b low more low2 more2 }
{
    match b {
        Binary::Add => results(low as i64 + low2 as i64, more as u64 + more2 as u64),
        Binary::Subtract => results(low as i64 - high(low2, more2), more as u64 + more2 as u64),
        Binary::Compare(c) => judged(
            c,
            low as i64,
            high(low, more),
            low2 as i64,
            high(low2, more2),
        ),
    }
}

// An operation on two ranges.
fn combine_ranges(b: Binary, low: i32, more: u32, low2: i32, more2: u32) -> Cell
    ensures { result ≡ range₂ b low more low2 more2 }
{
    if more as u64 + more2 as u64 == 0 {
        return Cell {
            value: Value::Range(calculate2(b, low, low2), 0),
        };
    }
    wider(b, low, more, low2, more2)
}

// "EQ and NEQ of two handles now give a known 1 or 0 by block number"; the order of two handles is stuck.
fn compare_handles(c: Comparison, j: u8, k: u8) -> Option<Cell>
    ensures { result ≡ compare_handles c j k }
{
    match c {
        Comparison::Equal => Some(truth(j == k)),
        Comparison::Unequal => Some(truth(j != k)),
        Comparison::Less => None,
        Comparison::AtMost => None,
        Comparison::Greater => None,
        Comparison::AtLeast => None,
    }
}

// An operation on the handles of blocks j and k.
fn combine_handles(b: Binary, j: u8, k: u8) -> Option<Cell>
    ensures { result ≡ combine_handles b j k }
{
    match b {
        Binary::Add => None,
        Binary::Subtract => None,
        Binary::Compare(c) => compare_handles(c, j, k),
    }
}

pub fn operate2(b: Binary, a: Cell, c: Cell) -> Option<Cell>
    ensures { result ≡ operate₂ b a c }
{
    let left = a.value;
    let right = c.value;
    match left {
        Value::Range(low, more) => match right {
            Value::Range(low2, more2) => Some(combine_ranges(b, low, more, low2, more2)),
            Value::Handle(_) => None,
        },
        Value::Handle(j) => match right {
            Value::Range(_, _) => None,
            Value::Handle(k) => combine_handles(b, j, k),
        },
    }
}

// "A condition whose range lacks 0, or is only 0, opens no second way."
pub fn condition_of(a: Cell) -> Option<Condition>
    ensures { result ≡ condition a }
{
    let Value::Range(low, more) = a.value else {
        return None;
    };
    if low > 0 {
        return Some(Condition::IsNonzero);
    }
    if high(low, more) < 0 {
        return Some(Condition::IsNonzero);
    }
    if more == 0 {
        Some(Condition::IsZero)
    } else {
        Some(Condition::IsUnknown)
    }
}

// The block that a cell is a handle of.
#[tactic(auto, unfolding(crate::specs::Cells::block, crate::specs::Cells::handled))]
pub fn block(a: Cell) -> Option<u8>
    ensures { result ≡ block a }
{
    let Value::Handle(k) = a.value else {
        return None;
    };
    Some(k)
}
