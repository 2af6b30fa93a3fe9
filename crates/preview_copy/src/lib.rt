// A routine file with one instruction replaced. The meaning is in specs/.
#![tactic(auto)]

ghost use Rattle.std.specs.Prelude.{◌≡◌, ◌++◌, ◌+◌, ◌≤◌, ◌<◌, length, drop};
ghost use Rattle.text.specs.Text.{bytes, lines};
ghost use Rattle.file_format.specs.Layout.{body, lines_of_code};
ghost use Rattle.file_format.specs.Rows.{Passes};
ghost use Rattle.answers.specs.Answers.{memory, answer_of};
ghost use Rattle.preview_copy.specs.Patch.{patched_at};
ghost use Rattle.preview_copy.specs.Held.{within, copy_answer};

use refusals::Refusal;

// Puts the parts of a copy one after the other at the start of out, and answers their length.
fn put_parts(out: &mut [u8], before: &[u8], at: &[u8], instruction: &[u8], after: &[u8]) -> usize
    requires { length before.now + length at.now + 1 + length instruction.now + 1 + length after.now ≤ length out.old }
    ensures value { result ≡ length (before.now ++ at.now ++ bytes " " ++ instruction.now ++ bytes "\n" ++ after.now) }
    ensures out_after { out.new ≡ (before.now ++ at.now ++ bytes " " ++ instruction.now ++ bytes "\n" ++ after.now) ++ drop (length (before.now ++ at.now ++ bytes " " ++ instruction.now ++ bytes "\n" ++ after.now)) out.old }
{
    let a = text_decimals::put(out, 0, before);
    let b = text_decimals::put(out, a, at);
    let c = text_decimals::put(out, b, b" ");
    let d = text_decimals::put(out, c, instruction);
    let e = text_decimals::put(out, d, b"\n");
    text_decimals::put(out, e, after)
}

// Puts the text with another instruction on line k, counted from 0, at the start of out, unless it is longer than a text may be.
fn put_copy(text: &[u8], k: usize, instruction: &[u8], out: &mut [u8]) -> Result<usize, Refusal>
    requires { Passes (lines text.now) × (length text.now ≤ 32768) × (14 ≤ k) × (k < 14 + length (lines_of_code (body (lines text.now)))) × (32768 ≤ length out.old) }
    ensures value { result ≡ answer_of (within (patched_at (lines text.now) k instruction.now)) }
    ensures out_after { out.new ≡ memory (within (patched_at (lines text.now) k instruction.now)) out.old }
{
    let rest = text::after_lines(text, k);
    let line = text::first_line(rest);
    let at = text::word_at(line, 0);
    let after = text::after_line(rest, line.len());
    let start = text.len() - rest.len();
    let kept = start + at.len() + 2 + after.len();
    if 32768 - kept < instruction.len() {
        return Err(Refusal::TextLength);
    }
    let n = put_parts(out, &text[..start], at, instruction, after);
    Ok(n)
}

// The copy of a file that passes, with another instruction at an address, at the start of out; or the refusal that comes before those of the
// copy's lines.
pub fn copy(text: &[u8], address: u32, instruction: &[u8], out: &mut [u8]) -> Result<usize, Refusal>
    requires { Passes (lines text.now) × (length text.now ≤ 32768) × (32768 ≤ length out.old) }
    ensures value { result ≡ answer_of (copy_answer text.now address instruction.now) }
    ensures out_after { out.new ≡ memory (copy_answer text.now address instruction.now) out.old }
{
    let body = file_layout::body_of(text);
    let first = file_values::first_address(body);
    let count = file_layout::count_code(body);
    let place = address as usize;
    if place < first {
        return Err(Refusal::BadName(address));
    }
    if count <= place - first {
        return Err(Refusal::BadName(address));
    }
    put_copy(text, file_layout::LINES + (place - first), instruction, out)
}
