// The parts of the routine that a text holds, as arrays. The meaning is in specs/ here and of `file_format`.
#![tactic(auto)]

ghost use Rattle.std.specs.Prelude.{◌≡◌, cond, List, [], map, ℕ, ◌+◌, ◌*◌, ◌%◌, ◌≤◌, ◌<◌, ltb, pos, length, get_or, take, drop, Some};
ghost use Rattle.text.specs.Text.{lines, no_line, index_of, find};
ghost use Rattle.numbers.specs.Numbers.{IsNumber, numbers, residue};
ghost use Rattle.cells.specs.Cells.{exactly};
ghost use Rattle.instructions.specs.Kinds.{operand, kind_at};
ghost use Rattle.machine_state.specs.HeldProgram.{first_address_of, lines_in, blocks_in, sizes_of, line, line_of, lines_from};
ghost use Rattle.machine_state.specs.HeldState.{view, WellFormed, blocks_of};
ghost use Rattle.file_format.specs.declared.Section.TheVariants.{Kinds, Primitives};
ghost use Rattle.file_format.specs.declared.Column.TheVariants.{Extra};
ghost use Rattle.file_format.specs.declared.Role.TheVariants.{Values};
ghost use Rattle.file_format.specs.Layout.{lines_of_code, list, listed};
ghost use Rattle.file_format.specs.HeldLayout.{Starts};
ghost use Rattle.file_format.specs.Rows.{value, total, op, arg};
ghost use Rattle.file_format.specs.Routine.{inside, natural_at, PriceList, price_list, argument_value, instruction_of, cells_of, blocks_in_line, start_of};
ghost use Rattle.file_values.specs.HeldValues.{NaturalRange};
ghost use Rattle.file_code.specs.HeldCode.{Cut};
ghost use Rattle.file_parts.specs.HeldParts.{PriceRange, prices_on, Coded, slot_of, PriceAt, KindsKept, put_line, code_left};

use cells::Cell;
use file_code::CodeWords;
use file_format::{Column, Role, Section};
use file_layout::line_in;
use instructions::Argument;
use machine_state::State;
use numbers::Range;

// ---- the words of a line

// The number at place i of a line: a limit or a price.
pub fn natural_at(range: Range, values: &[u8], i: usize) -> u32
    requires { NaturalRange range }
    ensures { result ≡ natural_at range (list values.now) i }
{
    file_values::natural_of(range, file_layout::listed_at(values, i))
}

// The cell at place i of a line; 0 where it lists fewer.
fn cell_at(values: &[u8], i: usize) -> Cell
    ensures { result ≡ get_or (cells_of (list values.now)) i (exactly (pos 0)) }
{
    file_values::cell_of(file_layout::listed_at(values, i))
}

// The number of a range that a word spells; one outside it counts 0.
pub fn number_of(range: Range, w: &[u8]) -> i32
    requires { IsNumber range.low × IsNumber range.high }
    ensures { result ≡ inside range (value w.now) }
{
    let z = file_values::number_in(range, w);
    z as i32
}

// ---- code and answers

// The first `count` of `values` are the answers.
#[derive(Clone, Copy)]
pub struct Answers {
    pub values: [i32; 64],
    pub count: usize,
}

// The answers that the lines of `text` hold.
pub fn answers_of(text: &[u8]) -> Answers
    requires { length (lines text.now) ≤ 64 }
    ensures answers { take result.count result.values ≡ map (λ l. inside numbers (value l.text)) (lines text.now) }
    ensures few { result.count ≤ 64 }
{
    let mut values = [0i32; 64];
    let mut rest = text;
    let mut n = 0;
    // A while: the lines of a text are met by cutting off the first, and how many there are is known only at its end.
    while 0 < rest.len() {
        let line = text::first_line(rest);
        let v = number_of(numbers::number_range(), line);
        values[n] = v;
        let next = text::next_lines(rest);
        rest = next;
        n += 1;
    }
    Answers {
        values: values,
        count: n,
    }
}

// ---- the start

// The state at the start, at the address `first`: the first cell of a line is ACCU, the others are the stack, the top first.
pub fn start_of(values: &[u8], first: usize) -> State
    requires { length (list values.now) ≤ 33 }
    ensures start { view result ≡ start_of first (cells_of (list values.now)) [] }
    ensures formed { WellFormed result }
{
    let accu = cell_at(values, 0);
    let zero = cells::exactly(0);
    let mut stack = [zero; 64];
    let count = file_layout::count_listed(values);
    let n = if count == 0 { 0 } else { count - 1 };
    let free = 64 - n;
    for i in 0..n {
        let cell = cell_at(values, i + 1);
        let j = free + i;
        stack[j] = cell;
    }
    State {
        at: first,
        accu: accu,
        free: free,
        stack: stack,
    }
}

// ---- code lines

// n where b is true, else 0.
fn where_true(b: bool, n: u8) -> u8
    ensures { result ≡ cond b n 0 }
{
    if b { n } else { 0 }
}

// The code of a kind's operation, 32 more where the kind pushes first, and 64 more where it calls a primitive.
fn code_of(k: usize) -> u8
    requires { k < 61 }
    ensures { Coded (kind_at k) result }
{
    let operation = instructions::operation_at(k);
    let pushed = where_true(instructions::pushes_at(k), 32);
    let called = where_true(instructions::calls_at(k), 64);
    operation + pushed + called
}

// The operand of kind k, which takes `takes`, with the argument w.
fn operand_of(k: usize, takes: Argument, w: &[u8]) -> i32
    requires { (k < 61) × (takes ≡ (kind_at k).argument) }
    ensures { (ps : List (List ℕ)) → result ≡ operand (kind_at k) (argument_value ps w.now (kind_at k).argument) }
{
    match takes {
        Argument::Absent => instructions::fixed_at(k),
        Argument::Target => number_of(instructions::range_at(k), w),
        Argument::Primitive => instructions::fixed_at(k),
        Argument::Within(_) => number_of(numbers::number_range(), w),
    }
}

// A code line, by the five words that a program has for it.
#[derive(Clone, Copy)]
struct Entry {
    code: u32,
    operand: i32,
    cycles: u32,
    words: u32,
    extra: u32,
}

// Where what is kept of the kind at a place begins: five words for each kind, and five more for a name that no kind has.
fn slot_of(kind: Option<usize>) -> usize
    requires { (k : ℕ) → kind ≡ Some k → k < 61 }
    ensures { result ≡ slot_of kind }
{
    match kind {
        Some(k) => k * 5,
        None => 305,
    }
}

// 1 for the slot of a kind, which is kept, and 0 for the other.
fn is_kept(slot: usize) -> u32
    ensures { result ≡ cond (ltb slot 305) 1 0 }
{
    if slot < 305 { 1 } else { 0 }
}

// The word OP of a code line that is cut into its words.
fn op_in(line: &[u8], cut: CodeWords) -> &[u8]
    requires { Cut line.now cut }
    ensures { result.now ≡ op line.now }
{
    let e = cut.at;
    let f = cut.op;
    let rest = file_code::after_word(line, e);
    &rest[..f]
}

// The word ARG of such a line.
fn arg_in(line: &[u8], cut: CodeWords) -> &[u8]
    requires { Cut line.now cut }
    ensures { result.now ≡ arg line.now }
{
    let e = cut.at;
    let f = cut.op;
    let g = cut.arg;
    let rest = file_code::after_word(line, e);
    let last = file_code::after_word(rest, f);
    &last[..g]
}

// The slot of the kind of a code line that is cut into its words: its code, 1 once it is kept, and the cycles, the words and the extra that the
// four lines of the kinds' prices list. They are searched when the kind is met for the first time.
fn find_price(
    kept: &mut [u32; 310],
    kinds: &[u8],
    cycles: &[u8],
    words: &[u8],
    extras: &[u8],
    text: &[u8],
    cut: CodeWords,
) -> usize
    requires cut { Cut text.now cut }
    requires kinds_kept { KindsKept (prices_on kinds.now cycles.now words.now) (list extras.now) kept.old }
    ensures slot { result ≡ slot_of cut.kind }
    ensures price { PriceAt (prices_on kinds.now cycles.now words.now) (list extras.now) (op text.now) kept.new result }
    ensures kept { KindsKept (prices_on kinds.now cycles.now words.now) (list extras.now) kept.new }
{
    let kind = cut.kind;
    let slot = slot_of(kind);
    if kept[slot + 1] == 1 {
        return slot;
    }
    let i = file_layout::index_listed(kinds, op_in(text, cut));
    let code = code_of(text::index_of(kind));
    kept[slot] = code as u32;
    kept[slot + 1] = is_kept(slot);
    kept[slot + 2] = natural_at(file_layout::cycle_counts(), cycles, i);
    kept[slot + 3] = natural_at(file_layout::word_counts(), words, i);
    kept[slot + 4] = natural_at(file_layout::extra_counts(), extras, i);
    slot
}

// The price of a primitive at place i of a line, where one is called.
fn price_called(range: Range, called: bool, primitives: &[u8], i: usize) -> u32
    requires { PriceRange range }
    ensures price { result ≡ cond called (natural_at range (list primitives.now) i) 0 }
    ensures small { result ≤ 65535 }
{
    if called {
        return natural_at(range, primitives, i);
    }
    0
}

// The place of the primitive w on the line of their names, where one is called.
fn place_called(called: bool, primitives: &[u8], w: &[u8]) -> usize
    ensures { result ≡ cond called (find w.now (list primitives.now)) 0 }
{
    if called {
        return file_layout::index_listed(primitives, w);
    }
    0
}

// The entry of a code line that is cut into its words, of a kind that takes `takes`, by the kind's slot and the three lines of the primitives'
// prices.
fn entry_of(
    kept: &[u32; 310],
    slot: usize,
    takes: Argument,
    primitives: &[u8],
    cycles: &[u8],
    words: &[u8],
    text: &[u8],
    cut: CodeWords,
) -> Entry
    requires cut { Cut text.now cut × (takes ≡ (kind_at (index_of cut.kind)).argument) }
    requires slot_bound { (slot + 5 ≤ 310) × (get_or kept.now (slot + 2) 0 ≤ 65535) × (get_or kept.now (slot + 3) 0 ≤ 65535) }
    ensures { (ks : PriceList) (xs : List (List ℕ)) → PriceAt ks xs (op text.now) kept.now slot → (line_of (line result.code result.operand result.cycles result.words result.extra) ≡ instruction_of ks xs (prices_on primitives.now cycles.now words.now) text.now) × (result.code % 32 ≤ 22) }
{
    let arg = arg_in(text, cut);
    let kind = cut.kind;
    let operand = operand_of(text::index_of(kind), takes, arg);
    let called = 64 <= kept[slot];
    let j = place_called(called, primitives, arg);
    let more_cycles = price_called(file_layout::cycle_counts(), called, cycles, j);
    let more_words = price_called(file_layout::word_counts(), called, words, j);
    Entry {
        code: kept[slot],
        operand: operand,
        cycles: kept[slot + 2] + more_cycles,
        words: kept[slot + 3] + more_words,
        extra: kept[slot + 4],
    }
}

// Puts an entry over the five words of line n of a program.
fn put_entry(code: &mut [u32; 5131], n: usize, entry: Entry)
    requires { n < 1024 }
    ensures { code.new ≡ put_line code.old (11 + n * 5) entry.code (residue 32 entry.operand) entry.cycles entry.words entry.extra }
{
    let k = 11 + n * 5;
    let operand = numbers::word_of(entry.operand);
    code[k] = entry.code;
    code[k + 1] = operand;
    code[k + 2] = entry.cycles;
    code[k + 3] = entry.words;
    code[k + 4] = entry.extra;
}

// Whether the first line of what is left after n lines is code: the first of all is, and those up to a line ANSWER.
fn is_code(rest: &[u8], n: usize, line: &[u8]) -> bool
    requires { line.now ≡ (get_or (lines rest.now) 0 no_line).text }
    ensures { result ≡ ltb 0 (length (code_left n (lines rest.now))) }
{
    if rest.len() == 0 {
        return false;
    }
    if n == 0 {
        return true;
    }
    !text::same(line, b"ANSWER")
}

// Fills in the lines of a program, and how many there are, by the code lines that `body` begins with and the seven lines of prices in `text`, where
// `places` says where the lines of the layout begin. What is left of `body` comes back. The rest of the head is not filled in. The loop is a
// while: the lines of a text are met by cutting off the first, and the first that is no code ends them.
pub fn put_lines<'a>(
    code: &mut [u32; 5131],
    text: &[u8],
    places: &[usize; 15],
    body: &'a [u8],
) -> &'a [u8]
    requires { (length code.old ≡ 5131) × Starts text.now places.now × (length (lines_of_code (lines body.now)) ≤ 1024) }
    ensures count { (length code.new ≡ 5131) × (lines_in code.new ≡ length (lines_of_code (lines body.now))) }
    ensures instructions { lines_from code.new (lines_in code.new) 11 ≡ map (λ l. instruction_of (price_list Kinds (lines text.now)) (listed (Values Kinds Extra) (lines text.now)) (price_list Primitives (lines text.now)) l.text) (lines_of_code (lines body.now)) }
    ensures known { (j : ℕ) → j < lines_in code.new → get_or code.new (11 + j * 5) 0 % 32 ≤ 22 }
    ensures rest { lines result.now ≡ drop (length (lines_of_code (lines body.now))) (lines body.now) }
{
    let keyed = instructions::keyed_kinds();
    let starts = instructions::name_starts();
    let table = instructions::all_names();
    let codes = instructions::argument_codes();
    let lows = instructions::range_lows();
    let highs = instructions::range_highs();
    let kinds = line_in(text, places, Role::Names(Section::Kinds));
    let kind_cycles = line_in(text, places, Role::Values(Section::Kinds, Column::Cycles));
    let kind_words = line_in(text, places, Role::Values(Section::Kinds, Column::Words));
    let extras = line_in(text, places, Role::Values(Section::Kinds, Column::Extra));
    let primitives = line_in(text, places, Role::Names(Section::Primitives));
    let cycles = line_in(
        text,
        places,
        Role::Values(Section::Primitives, Column::Cycles),
    );
    let words = line_in(
        text,
        places,
        Role::Values(Section::Primitives, Column::Words),
    );
    let mut kept = [0u32; 310];
    let mut rest = body;
    let mut line = text::first_line(rest);
    let mut n = 0;
    while is_code(rest, n, line) {
        let cut = file_code::cut_code(line, &keyed, &starts, &table);
        let slot = find_price(&mut kept, kinds, kind_cycles, kind_words, extras, line, cut);
        let kind = cut.kind;
        let k = text::index_of(kind);
        let takes = instructions::argument_in(&codes, &lows, &highs, Some(k));
        let entry = entry_of(&kept, slot, takes, primitives, cycles, words, line, cut);
        put_entry(code, n, entry);
        let next = text::after_line(rest, line.len());
        rest = next;
        line = text::first_line(rest);
        n += 1;
    }
    code[1] = n as u32;
    rest
}

// Fills in the head of a program but for the number of its lines: the first address, the number of blocks and their sizes.
pub fn put_head(code: &mut [u32; 5131], first: usize, sizes: [u8; 8], present: usize)
    requires { (length code.old ≡ 5131) × (first ≤ 60000) × (present ≤ 8) }
    ensures head { (first_address_of code.new ≡ first) × (sizes_of code.new ≡ take present sizes) × (blocks_in code.new ≡ present) }
    ensures kept { (length code.new ≡ 5131) × (lines_in code.new ≡ lines_in code.old) × ((i : ℕ) → 11 ≤ i → get_or code.new i 0 ≡ get_or code.old i 0) }
{
    code[0] = first as u32;
    code[2] = present as u32;
    for k in 0..8 {
        code[k + 3] = sizes[k] as u32;
    }
}

// ---- fields

// `fields` with `size` cells of a line, from its place `from` on, in the places from `start` on.
fn fill(values: &[u8], from: usize, fields: [Cell; 128], start: usize, size: usize) -> [Cell; 128]
    requires { (start + size ≤ 128) × (from + size ≤ length (list values.now)) }
    ensures kept { take start result ≡ take start fields }
    ensures filled { take size (drop start result) ≡ take size (drop from (cells_of (list values.now))) }
{
    let mut filled = fields;
    for i in 0..size {
        let cell = cell_at(values, from + i);
        let j = start + i;
        filled[j] = cell;
    }
    filled
}

// The cells of a line, block after block, in sixteen places for each block.
pub fn fields_of(values: &[u8], sizes: [u8; 8], count: usize) -> [Cell; 128]
    requires { (count ≤ 8) × ((k : ℕ) → get_or (take count sizes) k 0 ≤ 16) × (total (take count sizes) ≡ length (list values.now)) }
    ensures { blocks_of (take count sizes) result ≡ blocks_in_line (take count sizes) (cells_of (list values.now)) }
{
    let zero = cells::exactly(0);
    let mut fields = [zero; 128];
    let mut from = 0;
    for k in 0..count {
        let size = sizes[k] as usize;
        let filled = fill(values, from, fields, k * 16, size);
        fields = filled;
        from += size;
    }
    fields
}
