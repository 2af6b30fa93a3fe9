// The export: the code of a routine file to the compiler's words. The meaning is in specs/ of `words`.
#![tactic(auto)]

ghost use Rattle.std.specs.Prelude.{◌≡◌, List, ◌++◌, ℕ, suc, ◌+◌, ◌*◌, ◌≤◌, ◌<◌, pos, nat_abs, ◌-ℤ◌, length, get_or, take, drop};
ghost use Rattle.text.specs.Text.{no_line, lines, find};
ghost use Rattle.text_decimals.specs.Memory.{over};
ghost use Rattle.instructions.specs.Kinds.{kind_names, kind_at};
ghost use Rattle.instructions.specs.declared.Argument.TheVariants.{Target};
ghost use Rattle.file_format.specs.Layout.{list};
ghost use Rattle.file_format.specs.Rows.{Passes, op};
ghost use Rattle.words.specs.Decoding.{size_of};
ghost use Rattle.words.specs.Export.{positions, export_bytes};
ghost use Rattle.words_export.specs.HeldLines.{ops_in, lines_bytes, line_at, argument_at, line_bytes, Indexed, Leads, CodeLeads};

use file_format::{Role, Section};
use instructions::Argument;

// The kind of a code line, by its place in the table.
fn kind_of(line: &[u8]) -> usize
    ensures value { result ≡ find (op line.now) kind_names }
    ensures upper_bound { result < 61 }
{
    text::index_of(instructions::kind_named(text::word_at(line, 1)))
}

// The indices of the opcodes of the first `count` lines of `body`.
fn indices_of(body: &[u8], count: usize) -> [u16; 1024]
    requires { (count ≤ 1024) × (count ≤ length (lines body.now)) }
    ensures { (ps : List (List ℕ)) (first : ℕ) → take count result ≡ positions 0 (ops_in ps first (take count (lines body.now))) }
{
    let mut indices = [0u16; 1024];
    let mut rest = body;
    let mut index: usize = 0;
    for place in 0..count {
        indices[place] = index as u16;
        index += words::size_of(kind_of(text::first_line(rest)));
        rest = text::next_lines(rest);
    }
    indices
}

// The index of the opcode of the line that the target w of kind k is the address of.
fn target_index(indices: &[u16], first: usize, k: usize, w: &[u8]) -> usize
    requires { (k < 61) × ((kind_at k).argument ≡ Target) × Indexed indices.now first × Leads first (length indices.now) w.now Target }
    ensures value { result ≡ get_or indices.now (nat_abs (line_at first w.now)) 0 }
    ensures upper_bound { result < 2048 }
{
    let address = file_values::natural_of(instructions::range_at(k), w) as usize;
    indices[address - first] as usize
}

// "A branch word is an offset from its own position": that to the opcode at `target`, where `index` is that of the opcode before it.
fn offset_to(target: usize, index: usize) -> i32
    requires { (target < 2048) × (index < 2048) }
    ensures { result ≡ pos target -ℤ pos (suc index) }
{
    (target as i32) - ((index + 1) as i32)
}

// The argument word of kind k with the argument w, where its opcode stands at `index`.
fn argument_word(
    primitives: &[u8],
    indices: &[u16],
    first: usize,
    index: usize,
    k: usize,
    w: &[u8],
) -> i32
    requires { (k < 61) × (index < 2048) × (length (list primitives.now) ≤ 32) × Indexed indices.now first × Leads first (length indices.now) w.now (kind_at k).argument }
    ensures { result ≡ argument_at (list primitives.now) indices.now first index w.now (kind_at k).argument }
{
    match instructions::argument_at(k) {
        Argument::Absent => 0,
        Argument::Target => offset_to(target_index(indices, first, k, w), index),
        Argument::Primitive => file_layout::index_listed(primitives, w) as i32,
        Argument::Within(_) => file_parts::number_of(numbers::number_range(), w),
    }
}

// Puts the words of a code line over out from word `index` on, and answers the index after them.
fn put_line(
    out: &mut [u8],
    primitives: &[u8],
    indices: &[u16],
    first: usize,
    index: usize,
    line: &[u8],
) -> usize
    requires { (index < 2047) × (4 * index + 8 ≤ length out.old) × (length (list primitives.now) ≤ 32) × Indexed indices.now first × CodeLeads first (length indices.now) line.now }
    ensures value { result ≡ index + size_of (find (op line.now) kind_names) }
    ensures out_after { out.new ≡ over out.old (4 * index) (line_bytes (list primitives.now) indices.now first index line.now) }
{
    let k = kind_of(line);
    let e = words::put_word(out, 4 * index, instructions::opcode_at(k));
    if words::has_argument(k) {
        let w = text::word_at(line, 2);
        let z = argument_word(primitives, indices, first, index, k, w);
        words::put_word(out, e, numbers::word_of(z));
        return index + 2;
    }
    index + 1
}

// Puts the words of the lines of `body` whose opcodes stand at `indices` at the start of out, and answers how many bytes they are.
fn put_lines(out: &mut [u8], primitives: &[u8], indices: &[u16], first: usize, body: &[u8]) -> usize
    requires { (8192 ≤ length out.old) × (length (list primitives.now) ≤ 32) × Indexed indices.now first × (length indices.now ≤ length (lines body.now)) × ((j : ℕ) → j < length indices.now → CodeLeads first (length indices.now) (get_or (lines body.now) j no_line).text) }
    ensures value { result ≡ length (lines_bytes (list primitives.now) indices.now first (lines body.now)) }
    ensures out_after { out.new ≡ lines_bytes (list primitives.now) indices.now first (lines body.now) ++ drop (length (lines_bytes (list primitives.now) indices.now first (lines body.now))) out.old }
{
    let mut rest = body;
    let mut index: usize = 0;
    for _ in 0..indices.len() {
        let line = text::first_line(rest);
        index = put_line(out, primitives, indices, first, index, line);
        rest = text::next_lines(rest);
    }
    4 * index
}

// Puts the words of the code of a text that passes refusals 1 to 6 and 13 at the start of out, and answers how many bytes they are.
pub fn put_export(text: &[u8], out: &mut [u8]) -> usize
    requires { Passes (lines text.now) × (32768 ≤ length out.old) }
    ensures value { result ≡ length (export_bytes (lines text.now)) }
    ensures out_after { out.new ≡ export_bytes (lines text.now) ++ drop (length (export_bytes (lines text.now))) out.old }
{
    let primitives = file_layout::text_of(text, Role::Names(Section::Primitives));
    let body = file_layout::body_of(text);
    let first = file_values::first_address(body);
    let count = file_layout::count_code(body);
    let indices = indices_of(body, count);
    put_lines(out, primitives, &indices[..count], first, body)
}
