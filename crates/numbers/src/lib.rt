// Signed numbers of 31 bits that wrap. The meaning is in specs/.
#![tactic(auto)]

ghost use Rattle.std.specs.Prelude.{◌≡◌, nat_abs, neg_ℤ, ◌+ℤ◌, ◌-ℤ◌};
ghost use Rattle.numbers.specs.Numbers.{wrap, holds, bit, within, numbers, residue, signed};

// "EQ, NEQ, LTINT, LEINT, GTINT, GEINT"
#[derive(Clone, Copy)]
pub enum Comparison {
    Equal,
    Unequal,
    Less,
    AtMost,
    Greater,
    AtLeast,
}

// A range of integers, both ends included.
#[derive(Clone, Copy)]
pub struct Range {
    pub low: i64,
    pub high: i64,
}

// "Numbers are 31 bits on the card": the width stands here. Besides it only `cells::encode` and `cells::decode` know it, which hold the two
// ends of a range in one word.
const BITS: i64 = 31;

// The ends of the range.
pub const HIGHEST: i32 = (1 << (BITS - 1)) - 1;

pub const LOWEST: i32 = -HIGHEST - 1;

// How many numbers there are besides any one.
pub const OTHERS: u32 = HIGHEST as u32 * 2 + 1;

// How many of 64 bits a number leaves over.
const SPARE: i64 = 64 - BITS;

// The range of numbers.
pub fn number_range() -> Range
    ensures { result ≡ numbers }
{
    Range {
        low: LOWEST as i64,
        high: HIGHEST as i64,
    }
}

// The number that s wraps to: its lowest bits, with their sign.
pub fn narrow(s: i64) -> i32
    ensures { result ≡ wrap s }
{
    (s << SPARE >> SPARE) as i32
}

pub fn wrapping_add(x: i32, y: i32) -> i32
    ensures { result ≡ wrap (x +ℤ y) }
{
    narrow((x as i64) + (y as i64))
}

pub fn wrapping_sub(x: i32, y: i32) -> i32
    ensures { result ≡ wrap (x -ℤ y) }
{
    narrow((x as i64) - (y as i64))
}

// Exact at both ends of the range: only the lowest number has no negative, and it wraps to itself.
pub fn negate(x: i32) -> i32
    ensures { result ≡ wrap (neg_ℤ x) }
{
    if x <= LOWEST || x > HIGHEST {
        return wrapping_sub(0, x);
    }
    -x
}

fn bit(b: bool) -> i32
    ensures { result ≡ bit b }
{
    if b { 1 } else { 0 }
}

// "comparisons are signed and give 1 or 0"
pub fn compare(c: Comparison, x: i32, y: i32) -> i32
    ensures { result ≡ bit (holds c x y) }
{
    match c {
        Comparison::Equal => bit(x == y),
        Comparison::Unequal => bit(x != y),
        Comparison::Less => bit(x < y),
        Comparison::AtMost => bit(x <= y),
        Comparison::Greater => bit(x > y),
        Comparison::AtLeast => bit(x >= y),
    }
}

pub fn within(range: Range, z: i64) -> bool
    ensures { result ≡ within range z }
{
    range.low <= z && z <= range.high
}

// How many words of 32 bits there are, and from which on they stand for numbers below 0.
const WORDS: i64 = 1 << 32;

const HALF: i64 = WORDS / 2;

// The number that a word of 32 bits stands for.
pub fn signed(word: u32) -> i32
    ensures { result ≡ signed 32 word }
{
    let z = word as i64;
    if z < HALF {
        return z as i32;
    }
    (z - WORDS) as i32
}

// A number of 32 bits as a word.
pub fn word_of(z: i32) -> u32
    ensures { result ≡ residue 32 z }
{
    let w = z as i64;
    if w < 0 {
        return (w + WORDS) as u32;
    }
    w as u32
}

// How far a number is from 0.
pub fn magnitude(z: i32) -> u64
    ensures { result ≡ nat_abs z }
{
    let w = z as i64;
    if w < 0 {
        return (-w) as u64;
    }
    w as u64
}
