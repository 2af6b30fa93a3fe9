// The nearest number that moves the bound, on texts and lent memory. The meaning is in specs/.
#![tactic(auto)]

ghost use Rattle.std.specs.Prelude.{◌≡◌, ◌++◌, ◌+◌, ◌≤◌, length, drop};
ghost use Rattle.text_decimals.specs.Memory.{over};
ghost use Rattle.file_reader.specs.HeldRoutine.{Limited};
ghost use Rattle.answers.specs.Answers.{memory, answer_of};
ghost use Rattle.nearest_search.specs.Held.{of_sought};
ghost use Rattle.nearest_entry.specs.Answers.{name_of, line_of, of_searched, nearest_answer};
ghost use Rattle.nearest_entry.specs.Held.{search_in};

use file_check::Reader;
use file_reader::Routine;
use nearest_changes::{Change, Position};
use refusals::Refusal;

// What the search says of the routine.
fn sought(routine: Routine) -> Result<Option<Change>, Refusal>
    requires { Limited routine }
    ensures { of_sought result ≡ search_in routine }
{
    let code = routine.code;
    let blocks = routine.blocks;
    let start = routine.start;
    nearest_search::search(&code, start, blocks, routine.budget)
}

// Puts the name of a cell at the start of out, and answers its length.
fn put_name(out: &mut [u8], p: Position) -> usize
    requires { length (name_of p) ≤ length out.old }
    ensures value { result ≡ 0 + length (name_of p) }
    ensures out_after { out.new ≡ over out.old 0 (name_of p) }
{
    match p {
        Position::Accu => text_decimals::put(out, 0, b"ACCU"),
        Position::Entry(n) => {
            let a = text_decimals::put(out, 0, b"S");
            text_decimals::put_decimal(out, a, n as u64)
        }
        Position::Field(k, n) => {
            let a = text_decimals::put(out, 0, b"B");
            let b = text_decimals::put_decimal(out, a, k as u64);
            let c = text_decimals::put(out, b, b".");
            text_decimals::put_decimal(out, c, n as u64)
        }
    }
}

// Puts the line of a change at the start of out, and answers its length.
fn put_change(out: &mut [u8], change: Change) -> usize
    requires { length (line_of change) ≤ length out.old }
    ensures value { result ≡ length (line_of change) }
    ensures out_after { out.new ≡ line_of change ++ drop (length (line_of change)) out.old }
{
    let p = change.place;
    let a = put_name(out, p);
    let b = text_decimals::put(out, a, b" ");
    let c = text_decimals::put_integer(out, b, change.value);
    text_decimals::put(out, c, b"\n")
}

// The answer of the search to a routine.
fn nearest_routine(routine: Routine, out: &mut [u8]) -> Result<usize, Refusal>
    requires { Limited routine × (128 ≤ length out.old) }
    ensures value { result ≡ answer_of (of_searched (search_in routine)) }
    ensures out_after { out.new ≡ memory (of_searched (search_in routine)) out.old }
{
    match sought(routine)? {
        Some(change) => Ok(put_change(out, change)),
        None => Ok(text_decimals::put(out, 0, b"NONE\n")),
    }
}

// The nearest number that moves the bound of a routine file: a cell and its new value in the lent memory, or `NONE`, or a refusal.
pub fn nearest(text: &[u8], out: &mut [u8]) -> Result<usize, Refusal>
    ensures value { result ≡ answer_of (nearest_answer text.now (length out.old)) }
    ensures out_after { out.new ≡ memory (nearest_answer text.now (length out.old)) out.old }
{
    file_entry::check(Reader::Bound, 128, out.len(), text)?;
    let routine = file_reader::routine_of(text);
    nearest_routine(routine, out)
}
