// The rows in which ways wait for their address, and the merging of the states that meet there. The meaning is in specs/.
#![tactic(auto)]

ghost use Rattle.std.specs.Prelude.{◌≡◌, List, map, ℕ, ◌+◌, ◌<◌, ◌≤◌, length, get_or, take, drop};
ghost use Rattle.merge_cells.specs.Merge.{merge_cells};
ghost use Rattle.merge_cells.specs.HeldCodes.{decoded_cell, decoded_cells};
ghost use Rattle.cells.specs.HeldConfined.{confine};
ghost use Rattle.machine_state.specs.HeldProgram.{first_address_of, sizes_of, IsProgram};
ghost use Rattle.machine_state.specs.HeldState.{blocks_of};
ghost use Rattle.merge_theory.specs.Merge.{merge_lists, merge_states, settle, larger, join};
ghost use Rattle.merge_rows.specs.HeldRows.{Formed, Numeric, Row, Rows, unused_of, of_merged, of_cells, of_blocks, of_states, arrival_of, state_in, price_in, arrival_in, slot_in, slot_at, join_at, rows_of};

use cells::Cell;
use machine_state::State;

// A way to an address: the state that comes to it, with its blocks, and the largest sums of the ways to it.
#[derive(Clone, Copy)]
pub struct Way {
    pub state: State,
    pub blocks: [Cell; 128],
    pub cycles: u64,
    pub words: u64,
}

// The numbers of cells from the place `low` on, as many as are lent.
fn encode_cells(cells: &[Cell], low: usize, numbers: &mut [u64])
    requires { low + length numbers.old ≤ length cells.now }
    ensures { decoded_cells numbers.new ≡ map confine (take (length numbers.old) (drop low cells.now)) }
{
    for i in 0..numbers.len() {
        numbers[i] = merge_cells::encode(cells[low + i]);
    }
}

// The numbers of the fields that the blocks have, block by block.
fn encode_blocks(blocks: [Cell; 128], fields: &mut [u64], code: &[u32; 5131])
    requires { (length blocks ≡ 128) × (length fields.old ≡ 128) × IsProgram code.now }
    ensures { blocks_of (sizes_of code.now) (decoded_cells fields.new) ≡ blocks_of (sizes_of code.now) (map confine blocks) }
{
    let count = machine_state::count_blocks(code);
    for k in 0..count {
        let low = k * 16;
        let high = low + machine_state::size_of(code, k);
        encode_cells(&blocks, low, &mut fields[low..high]);
    }
}

// A stack whose cells from the place `low` on are those of the numbers; the places before it are unused.
fn decode_stack(entries: &[u64], low: usize) -> [Cell; 64]
    requires { low + length entries.now ≡ 64 }
    ensures { (length result ≡ 64) × (drop low result ≡ decoded_cells entries.now) }
{
    let none = cells::unknown();
    let mut stack = [none; 64];
    for i in 0..entries.len() {
        stack[low + i] = merge_cells::decode(entries[i]);
    }
    stack
}

// The cells of the blocks.
fn decode_fields(fields: &[u64]) -> [Cell; 128]
    requires { length fields.now ≡ 128 }
    ensures { result ≡ decoded_cells fields.now }
{
    let none = cells::unknown();
    let mut blocks = [none; 128];
    for i in 0..128 {
        blocks[i] = merge_cells::decode(fields[i]);
    }
    blocks
}

// The unused places of a stack, as a head holds them: a number past 64 stands for 64.
fn unused(n: u64) -> usize
    ensures { result ≡ unused_of n }
{
    if n < 64 { n as usize } else { 64 }
}

// The merge of the cells of two numbers. A number that came and is held already stays.
fn merge_numbers(x: u64, y: u64) -> Option<u64>
    ensures { of_merged result ≡ merge_cells (decoded_cell x) (decoded_cell y) }
{
    if x == y {
        return Some(x);
    }
    let merged = merge_cells::merge(merge_cells::decode(x), merge_cells::decode(y))?;
    Some(merge_cells::encode(merged))
}

// The cells `came` are merged one by one into those of `held`, which are as many; whether all can be merged.
fn merge_cells(held: &mut [u64], came: &[u64]) -> bool
    requires { length held.old ≡ length came.now }
    ensures { of_cells result held.new ≡ merge_lists merge_cells (decoded_cells held.old) (decoded_cells came.now) }
{
    for i in 0..came.len() {
        let merged = merge_numbers(held[i], came[i]);
        let Some(x) = merged else {
            return false;
        };
        held[i] = x;
    }
    true
}

// The fields of all blocks, block by block.
fn merge_blocks(held: &mut [u64], came: &[u64], code: &[u32; 5131]) -> bool
    requires { (length held.old ≡ 128) × (length came.now ≡ 128) × IsProgram code.now }
    ensures { of_blocks (sizes_of code.now) result held.new ≡ merge_lists (merge_lists merge_cells) (blocks_of (sizes_of code.now) (decoded_cells held.old)) (blocks_of (sizes_of code.now) (decoded_cells came.now)) }
{
    let count = machine_state::count_blocks(code);
    for k in 0..count {
        let low = k * 16;
        let high = low + machine_state::size_of(code, k);
        if !merge_cells(&mut held[low..high], &came[low..high]) {
            return false;
        }
    }
    true
}

// What has come to an address over jumps is held in a row: its mark (0 for nothing, 1 for a state, 2 for states that cannot be merged), the
// unused places of the stack, the largest cycles and words of the ways to it, the accumulator, 64 entries and 128 fields. Of these only the
// entries and fields that the state has are written.

// A way is the first that comes.
fn put(row: &mut [u64], code: &[u32; 5131], w: Way)
    requires { Row row.old × (Formed w × Numeric (sizes_of code.now) w) × IsProgram code.now }
    ensures { (get_or row.new 0 0 ≡ 1) × (arrival_in (sizes_of code.now) w.state.at row.new ≡ arrival_of (sizes_of code.now) w) }
{
    let s = w.state;
    let stack = s.stack;
    let blocks = w.blocks;
    let accu = merge_cells::encode(s.accu);
    row[0] = 1;
    row[1] = s.free as u64;
    row[2] = w.cycles;
    row[3] = w.words;
    row[4] = accu;
    let first = 5 + s.free;
    encode_cells(&stack, s.free, &mut row[first..69]);
    encode_blocks(blocks, &mut row[69..197], code);
}

// The way to the address `at` that a row holds.
pub fn take(at: usize, row: &[u64]) -> Way
    requires { Row row.now }
    ensures by_index { (ns : List ℕ) → arrival_of ns result ≡ arrival_in ns at row.now }
    ensures formed { (Formed result × ((ns : List ℕ) → Numeric ns result)) × (result.state.at ≡ at) }
{
    let accu = merge_cells::decode(row[4]);
    let free = unused(row[1]);
    let first = 5 + free;
    let stack = decode_stack(&row[first..69], free);
    let s = State {
        at: at,
        accu: accu,
        free: free,
        stack: stack,
    };
    let blocks = decode_fields(&row[69..197]);
    Way {
        state: s,
        blocks: blocks,
        cycles: row[2],
        words: row[3],
    }
}

// The state of a row becomes its merge with that of the row `came`; whether they can be merged.
fn merge_states(row: &mut [u64], came: &[u64], code: &[u32; 5131]) -> bool
    requires { Row row.old × Row came.now × IsProgram code.now }
    ensures by_index { (a b : ℕ) → of_states (sizes_of code.now) a result row.new ≡ merge_states (state_in (sizes_of code.now) a row.old) (state_in (sizes_of code.now) b came.now) }
    ensures row_unchanged { take 4 row.new ≡ take 4 row.old }
{
    let free = unused(row[1]);
    let other = unused(came[1]);
    if free != other {
        return false;
    }
    let merged = merge_numbers(row[4], came[4]);
    let Some(accu) = merged else {
        return false;
    };
    row[4] = accu;
    let first = 5 + free;
    if !merge_cells(&mut row[first..69], &came[first..69]) {
        return false;
    }
    merge_blocks(&mut row[69..197], &came[69..197], code)
}

// A row meets the row `came`: the states are merged, and the larger sums stay.
fn meet(row: &mut [u64], came: &[u64], code: &[u32; 5131])
    requires { Row row.old × Row came.now × IsProgram code.now × (get_or row.old 0 0 ≡ 1) }
    ensures { (a b : ℕ) → slot_in (sizes_of code.now) a row.new ≡ settle (larger (price_in row.old) (price_in came.now)) (merge_states (state_in (sizes_of code.now) a row.old) (state_in (sizes_of code.now) b came.now)) }
{
    if !merge_states(row, came, code) {
        row[0] = 2;
        return;
    }
    let cycles = row[2].max(came[2]);
    let words = row[3].max(came[3]);
    row[2] = cycles;
    row[3] = words;
}

// A way comes to a row.
pub fn join(row: &mut [u64], code: &[u32; 5131], w: Way)
    requires { Row row.old × (Formed w × Numeric (sizes_of code.now) w) × IsProgram code.now }
    ensures { slot_in (sizes_of code.now) w.state.at row.new ≡ join (slot_in (sizes_of code.now) w.state.at row.old) (arrival_of (sizes_of code.now) w) }
{
    let mark = row[0];
    if mark == 0 {
        put(row, code, w);
        return;
    }
    if mark == 1 {
        let mut came = [0; 197];
        put(&mut came, code, w);
        meet(row, &came, code);
    }
}

// A way goes to its address, if that is one of those that have a row: the program's, and the one after its last.
pub fn send(rows: &mut [u64], code: &[u32; 5131], w: Way)
    requires { Rows rows.old × (Formed w × Numeric (sizes_of code.now) w) × IsProgram code.now }
    ensures { (b : ℕ) → b < rows_of code.now → slot_at (sizes_of code.now) (first_address_of code.now) rows.new b ≡ join_at (first_address_of code.now + b) (arrival_of (sizes_of code.now) w) (slot_at (sizes_of code.now) (first_address_of code.now) rows.old b) }
{
    let s = w.state;
    let at = s.at;
    let first = code[0] as usize;
    if at < first {
        return;
    }
    let k = at - first;
    if code[1] as usize + 1 <= k {
        return;
    }
    let low = 197 * k;
    let high = low + 197;
    join(&mut rows[low..high], code, w);
}
