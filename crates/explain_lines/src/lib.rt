// The lines of a walk, written into lent memory. The meaning is in specs/.
#![tactic(auto)]

ghost use Rattle.std.specs.Prelude.{◌≡◌, ◌+◌, ◌-◌, ◌≤◌, length, get_or, drop};
ghost use Rattle.text.specs.Text.{no_line, lines};
ghost use Rattle.text_decimals.specs.Memory.{over};
ghost use Rattle.cells.specs.Cells.{unknown};
ghost use Rattle.machine.specs.Machine.{step};
ghost use Rattle.machine_state.specs.HeldProgram.{first_address_of, lines_in, program_of, sizes_of, IsProgram};
ghost use Rattle.machine_state.specs.HeldState.{WellFormed, whole};
ghost use Rattle.report.specs.HeldPath.{decode};
ghost use Rattle.explain_walk.specs.Walk.{follow};
ghost use Rattle.explain_lines.specs.Listing.{shown_lines, entry_text, listing};
ghost use Rattle.explain_lines.specs.Held.{Stands};

use cells::Cell;
use machine_state::State;

// A place in a text: the byte at which a line begins, and the line's number, counted from 0.
#[derive(Clone, Copy)]
pub struct Cursor {
    pub byte: usize,
    pub line: usize,
}

// The number of the code line of an address; the first address has line 0.
fn line_of(first: usize, at: usize) -> usize
    ensures { result ≡ at - first }
{
    if at < first {
        return 0;
    }
    at - first
}

// Where the line after the one at `byte` begins; the end of the body where there is none.
fn line_after(body: &[u8], byte: usize) -> usize
    requires { byte ≤ length body.now }
    ensures { (result ≤ length body.now) × (lines (drop result body.now) ≡ drop 1 (lines (drop byte body.now))) }
{
    let rest = &body[byte..];
    let e = text::piece_length(rest, b'\n');
    if e < rest.len() {
        return byte + e + 1;
    }
    body.len()
}

// The cursor of line k: it goes on from a cursor of the same body, or from the start where that one is past the line.
pub fn seek(body: &[u8], from: Cursor, k: usize) -> Cursor
    requires { Stands body.now from }
    ensures { Stands body.now result × (result.line ≡ k) }
{
    let mut byte = from.byte;
    let mut line = from.line;
    if k < line {
        byte = 0;
        line = 0;
    }
    for _ in line..k {
        byte = line_after(body, byte);
    }
    Cursor {
        byte: byte,
        line: k,
    }
}

// The line at a cursor.
pub fn line_under(body: &[u8], cursor: Cursor) -> &[u8]
    requires { Stands body.now cursor }
    ensures { result.now ≡ (get_or (lines body.now) cursor.line no_line).text }
{
    let byte = cursor.byte;
    text::first_line(&body[byte..])
}

// Puts a line over out from `at` on, and answers where it ends.
pub fn put_entry(
    out: &mut [u8],
    at: usize,
    line: &[u8],
    cycles: u64,
    words: u64,
    depth: u64,
    way: u64,
) -> usize
    requires { at + length (entry_text line.now cycles words depth (decode way)) ≤ length out.old }
    ensures value { result ≡ at + length (entry_text line.now cycles words depth (decode way)) }
    ensures out_after { out.new ≡ over out.old at (entry_text line.now cycles words depth (decode way)) }
{
    let a = text_decimals::put(out, at, line);
    let b = text_decimals::put(out, a, b" ");
    let c = text_decimals::put_decimal(out, b, cycles);
    let d = text_decimals::put(out, c, b" ");
    let e = text_decimals::put_decimal(out, d, words);
    let f = text_decimals::put(out, e, b" ");
    let g = text_decimals::put_decimal(out, f, depth);
    let h = text_decimals::put(out, g, b" ");
    let i = report::put_path(out, h, way);
    text_decimals::put(out, i, b"\n")
}

// Puts the lines of the walk along `path` over out from `at` on, and answers where they end.
pub fn put_walk(
    out: &mut [u8],
    at: usize,
    body: &[u8],
    code: &[u32; 5131],
    start: State,
    initial: [Cell; 128],
    path: u64,
) -> usize
    requires program { IsProgram code.now × WellFormed start }
    requires start_in_bounds { at + length (listing (lines body.now) (first_address_of code.now) (shown_lines (follow (step (program_of code.now) unknown) (lines_in code.now) (decode path) (whole (sizes_of code.now) initial start)))) ≤ length out.old }
    ensures value { result ≡ at + length (listing (lines body.now) (first_address_of code.now) (shown_lines (follow (step (program_of code.now) unknown) (lines_in code.now) (decode path) (whole (sizes_of code.now) initial start)))) }
    ensures out_after { out.new ≡ over out.old at (listing (lines body.now) (first_address_of code.now) (shown_lines (follow (step (program_of code.now) unknown) (lines_in code.now) (decode path) (whole (sizes_of code.now) initial start)))) }
{
    let mut e = at;
    let mut state = start;
    let mut blocks = initial;
    let mut rest = path;
    let mut spent: u64 = 0;
    let mut sum: u64 = 0;
    let first = code[0] as usize;
    let mut cursor = Cursor { byte: 0, line: 0 };
    for _ in 0..code[1] {
        let walked = explain_walk::walk(code, rest, state, blocks);
        if !walked.made {
            return e;
        }
        spent = spent + walked.cycles;
        sum = sum + walked.words;
        cursor = seek(body, cursor, line_of(first, state.at));
        let line = line_under(body, cursor);
        let height = 64 - state.free;
        e = put_entry(out, e, line, spent, sum, height as u64, walked.way);
        if walked.stops {
            return e;
        }
        rest = walked.rest;
        state = walked.state;
        let reached = walked.blocks;
        blocks = reached;
    }
    e
}
