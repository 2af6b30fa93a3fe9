// The 61 instruction kinds, and their table by columns. The meaning is in specs/.
#![tactic(auto)]

ghost use Rattle.std.specs.Prelude.{◌≡◌, ℕ, ◌+◌, ◌≤◌, ◌<◌, ltb, length, Some};
ghost use Rattle.text.specs.Text.{equals, place_among};
ghost use Rattle.text_decimals.specs.Memory.{over};
ghost use Rattle.instructions.specs.Kinds.{kind_names, calls, kind_at};
ghost use Rattle.instructions.specs.HeldColumns.{name_start, name_key, Keyed, Begins, Joined, argument_code, range_of, Codes, Lows, Highs, operation_code, ByOpcode};
ghost use Rattle.instructions.specs.Opcodes.{kind_coded};

use cells::{Binary, Unary};
use numbers::Range;

mod arguments;
mod columns;
pub mod operations;
mod slots;

// "argument range after each": no argument, a number in a range, a target, or a primitive.
// A kind with a target jumps there, and a kind with a primitive calls it.
#[derive(Clone, Copy)]
pub enum Argument {
    Absent,
    Target,
    Primitive,
    Within(Range),
}

// What an instruction does once it has pushed or not, with an operand: "ACC n", "POP n", "ASSIGN n", "CONSTINT i", and so on.
#[derive(Clone, Copy)]
pub enum Operation {
    Nothing,
    Access,
    Drop,
    Assign,
    Constant,
    GetField,
    SetField,
    Branch,
    BranchIf,
    BranchIfNot,
    Call,
    Stop,
    Alter(Unary),
    Combine(Binary),
}

// The code of a kind's argument.
fn argument_code_at(k: usize) -> u8
    requires { k < 61 }
    ensures { result ≡ argument_code (kind_at k).argument }
{
    columns::ARGUMENTS[k]
}

// The ends of its range, or 0 where there is none.
fn low_at(k: usize) -> i64
    requires { k < 61 }
    ensures { result ≡ (range_of (kind_at k).argument).low }
{
    columns::LOWS[k]
}

fn high_at(k: usize) -> i64
    requires { k < 61 }
    ensures { result ≡ (range_of (kind_at k).argument).high }
{
    columns::HIGHS[k]
}

// The range of the number or the target that a kind takes; 0 to 0 where it takes neither.
pub fn range_at(k: usize) -> Range
    requires { k < 61 }
    ensures { result ≡ range_of (kind_at k).argument }
{
    Range {
        low: low_at(k),
        high: high_at(k),
    }
}

// Whether a kind takes an argument.
pub fn takes_at(k: usize) -> bool
    requires { k < 61 }
    ensures { result ≡ ltb 0 (argument_code (kind_at k).argument) }
{
    slots::TAKING >> k & 1 == 1
}

// What a kind takes.
pub fn argument_at(k: usize) -> Argument
    requires { k < 61 }
    ensures { result ≡ (kind_at k).argument }
{
    if !takes_at(k) {
        return Argument::Absent;
    }
    match argument_code_at(k) {
        arguments::ABSENT => Argument::Absent,
        arguments::WITHIN => Argument::Within(range_at(k)),
        arguments::TARGET => Argument::Target,
        _ => Argument::Primitive,
    }
}

// What each kind takes, by its code, to be lent to `argument_in`.
pub fn argument_codes() -> [u8; 61]
    ensures { Codes result }
{
    columns::ARGUMENTS
}

// The lower ends of the ranges, to be lent to `argument_in`.
pub fn range_lows() -> [i64; 61]
    ensures { Lows result }
{
    columns::LOWS
}

// The upper ends, to be lent to `argument_in`.
pub fn range_highs() -> [i64; 61]
    ensures { Highs result }
{
    columns::HIGHS
}

// What the kind at a place takes, by tables that are lent; nothing where there is no kind.
pub fn argument_in(
    codes: &[u8; 61],
    lows: &[i64; 61],
    highs: &[i64; 61],
    kind: Option<usize>,
) -> Argument
    requires codes { Codes codes.now × Lows lows.now × Highs highs.now }
    requires by_index { (k : ℕ) → kind ≡ Some k → k < 61 }
    ensures { (k : ℕ) → kind ≡ Some k → result ≡ (kind_at k).argument }
{
    let Some(k) = kind else {
        return Argument::Absent;
    };
    match codes[k] {
        arguments::ABSENT => Argument::Absent,
        arguments::WITHIN => Argument::Within(Range {
            low: lows[k],
            high: highs[k],
        }),
        arguments::TARGET => Argument::Target,
        _ => Argument::Primitive,
    }
}

// Whether a kind calls a primitive.
pub fn calls_at(k: usize) -> bool
    requires { k < 61 }
    ensures { result ≡ calls (kind_at k).argument }
{
    columns::ARGUMENTS[k] == arguments::PRIMITIVE
}

// Whether a kind pushes first.
pub fn pushes_at(k: usize) -> bool
    requires { k < 61 }
    ensures { result ≡ (kind_at k).pushes }
{
    columns::PUSHES[k] == 1
}

// The code of a kind's operation.
pub fn operation_at(k: usize) -> u8
    requires { k < 61 }
    ensures { result ≡ operation_code (kind_at k).operation }
{
    columns::OPERATIONS[k]
}

// The operand that a kind's name fixes.
pub fn fixed_at(k: usize) -> i32
    requires { k < 61 }
    ensures { result ≡ (kind_at k).fixed }
{
    columns::FIXED[k] as i32
}

// The kinds by the keys of their names, to be lent to `kind_in`.
pub fn keyed_kinds() -> [u8; 256]
    ensures { Keyed result }
{
    slots::KINDS
}

// Where each name begins in the text of all names, to be lent to `kind_in`.
pub fn name_starts() -> [u16; 62]
    ensures { Begins result }
{
    slots::STARTS
}

// The text of all names, to be lent to `kind_in`.
pub fn all_names() -> [u8; 474]
    ensures { Joined result }
{
    columns::NAMES
}

// Where name k begins; at 61 where a name after the last would.
fn name_start(starts: &[u16; 62], k: usize) -> usize
    requires { Begins starts.now × (k ≤ 61) }
    ensures { result ≡ name_start k }
{
    starts[k] as usize
}

// Whether w is the name of a kind.
fn is_name_of(starts: &[u16; 62], names: &[u8], k: usize, w: &[u8]) -> bool
    requires { Begins starts.now × Joined names.now × (k < 61) }
    ensures { result ≡ equals w.now (kind_at k).name }
{
    let start = name_start(starts, k);
    let next = name_start(starts, k + 1);
    text::same(w, &names[start..next - 1])
}

// The key of a word: no two names have the same.
fn name_key(w: &[u8]) -> usize
    requires { (2 ≤ length w.now) × (length w.now ≤ 12) }
    ensures { result ≡ name_key w.now }
{
    let n = w.len();
    let first = usize::from(w[0]);
    let second = usize::from(w[1]);
    let last = usize::from(w[n - 1]);
    (first + second + 5 * last + 9 * n) % 256
}

// The only kind whose name a word can be.
fn candidate(keyed: &[u8; 256], w: &[u8]) -> usize
    requires { Keyed keyed.now × (2 ≤ length w.now) × (length w.now ≤ 12) }
    ensures low { result < 61 }
    ensures only { (k : ℕ) → k < 61 → w.now ≡ (kind_at k).name → result ≡ k }
{
    let key = name_key(w);
    usize::from(keyed[key])
}

// The kind that a word names, by its place in the table: no search, since one kind alone can have the name. The three tables are lent, since
// a constant array that is indexed where it stands is stored anew at each use.
pub fn kind_in(keyed: &[u8; 256], starts: &[u16; 62], names: &[u8], w: &[u8]) -> Option<usize>
    requires { Keyed keyed.now × Begins starts.now × Joined names.now }
    ensures { result ≡ place_among w.now kind_names }
{
    if w.len() < 2 {
        return None;
    }
    if 12 < w.len() {
        return None;
    }
    let k = candidate(keyed, w);
    if is_name_of(starts, names, k, w) {
        Some(k)
    } else {
        None
    }
}

// The same with tables of its own.
pub fn kind_named(w: &[u8]) -> Option<usize>
    ensures { result ≡ place_among w.now kind_names }
{
    let keyed = keyed_kinds();
    let starts = name_starts();
    let names = all_names();
    kind_in(&keyed, &starts, &names, w)
}

// The opcode of a kind.
pub fn opcode_at(k: usize) -> u32
    requires { k < 61 }
    ensures { result ≡ (kind_at k).opcode }
{
    columns::OPCODES[k] as u32
}

// The kinds by their opcodes, to be lent to `kind_coded`.
pub fn coded_kinds() -> [u8; 144]
    ensures { ByOpcode result }
{
    slots::CODED
}

// The kind with an opcode, by its place in the table.
pub fn kind_coded(coded: &[u8; 144], opcode: u32) -> Option<usize>
    requires { ByOpcode coded.now }
    ensures { result ≡ kind_coded opcode }
{
    if 143 < opcode {
        return None;
    }
    let k = usize::from(coded[opcode as usize]);
    if k < 61 { Some(k) } else { None }
}

// Puts the name of a kind over out from `at` on, and answers where it ends. The two tables are lent, as to `kind_in`.
pub fn put_name_in(out: &mut [u8], at: usize, starts: &[u16; 62], names: &[u8], k: usize) -> usize
    requires begins { Begins starts.now × Joined names.now }
    requires k_bound { (k < 61) × (at + length (kind_at k).name ≤ length out.old) }
    ensures value { result ≡ at + length (kind_at k).name }
    ensures out_after { out.new ≡ over out.old at (kind_at k).name }
{
    let start = name_start(starts, k);
    let next = name_start(starts, k + 1);
    text_decimals::put(out, at, &names[start..next - 1])
}

// The same with tables of its own.
pub fn put_name(out: &mut [u8], at: usize, k: usize) -> usize
    requires { (k < 61) × (at + length (kind_at k).name ≤ length out.old) }
    ensures value { result ≡ at + length (kind_at k).name }
    ensures out_after { out.new ≡ over out.old at (kind_at k).name }
{
    let starts = name_starts();
    let names = all_names();
    put_name_in(out, at, &starts, &names, k)
}
