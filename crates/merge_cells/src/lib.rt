// Cells where ways meet: the merge of two, and the numbers by which cells wait in a table. The meaning is in specs/.
#![tactic(auto)]

ghost use Rattle.std.specs.Prelude.{◌≡◌};
ghost use Rattle.cells.specs.Cells.{results};
ghost use Rattle.cells.specs.HeldConfined.{confine, Confined};
ghost use Rattle.merge_cells.specs.Merge.{lower, upper, merge_cells};
ghost use Rattle.merge_cells.specs.HeldCodes.{decoded_cell};

use cells::{Cell, Value};

// The smaller of two numbers.
fn lower(m: i32, n: i32) -> i32
    ensures { result ≡ lower m n }
{
    if m <= n { m } else { n }
}

// The larger.
fn upper(m: i32, n: i32) -> i32
    ensures { result ≡ upper m n }
{
    if m <= n { n } else { m }
}

// "A merge takes the smallest range that covers both."; a handle and anything else cannot be merged. (document 02 §9 and §12)
pub fn merge(a: Cell, b: Cell) -> Option<Cell>
    requires { Confined a × Confined b }
    ensures { result ≡ merge_cells a b }
{
    let left = a.value;
    let right = b.value;
    match left {
        Value::Range(low, more) => match right {
            Value::Range(low2, more2) => {
                let high = upper(
                    cells::high(low, more) as i32,
                    cells::high(low2, more2) as i32,
                );
                Some(cells::between(lower(low, low2), high))
            }
            Value::Handle(_) => None,
        },
        Value::Handle(j) => match right {
            Value::Range(_, _) => None,
            Value::Handle(k) => { if j == k { Some(cells::handle(j)) } else { None } }
        },
    }
}

// A range as a number: its least and its greatest number, counted from the lowest on.
fn encode_range(low: i32, more: u32) -> u64
    ensures { decoded_cell result ≡ results low more }
{
    if low < numbers::LOWEST {
        return numbers::OTHERS as u64;
    }
    let least = (low as i64 + 1073741824) as u64;
    let greatest = least + more as u64;
    if greatest > numbers::OTHERS as u64 {
        return numbers::OTHERS as u64;
    }
    least * 2147483648 + greatest
}

// A cell as a number.
pub fn encode(c: Cell) -> u64
    ensures { decoded_cell result ≡ confine c }
{
    let value = c.value;
    match value {
        Value::Range(low, more) => encode_range(low, more),
        Value::Handle(k) => 549755813888 + k as u64,
    }
}

// The cell that a number stands for: any number stands for one.
pub fn decode(x: u64) -> Cell
    ensures { result ≡ decoded_cell x }
{
    let least = x / 2147483648;
    let greatest = x % 2147483648;
    if greatest < least {
        return cells::handle((x % 256) as u8);
    }
    let low = least as i64 - 1073741824;
    Cell {
        value: Value::Range(low as i32, (greatest - least) as u32),
    }
}
