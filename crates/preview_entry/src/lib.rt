// A preview of a routine file, on texts and lent memory. The meaning is in specs/.
#![tactic(auto)]

ghost use Rattle.std.specs.Prelude.{◌≡◌, ◌≤◌, length};
ghost use Rattle.text.specs.Text.{lines};
ghost use Rattle.file_format.specs.Rows.{Passes};
ghost use Rattle.answers.specs.Answers.{memory, answer_of};
ghost use Rattle.preview_entry.specs.Answers.{preview_answer};

use file_check::Reader;
use refusals::Refusal;

// The bound of the copy of a file that passes, or the refusal of its address.
fn bound_copy(
    text: &[u8],
    address: u32,
    instruction: &[u8],
    out: &mut [u8],
) -> Result<usize, Refusal>
    requires { Passes (lines text.now) × (length text.now ≤ 32768) × (128 ≤ length out.old) }
    ensures value { result ≡ answer_of (preview_answer text.now address instruction.now (length out.old)) }
    ensures out_after { out.new ≡ memory (preview_answer text.now address instruction.now (length out.old)) out.old }
{
    let mut patched = [0u8; 32768];
    let n = preview_copy::copy(text, address, instruction, &mut patched)?;
    bound_entry::bound(&patched[..n], out)
}

// The bound of a routine file with another instruction at an address: the report in the lent memory, or a refusal.
pub fn preview(
    text: &[u8],
    address: u32,
    instruction: &[u8],
    out: &mut [u8],
) -> Result<usize, Refusal>
    ensures value { result ≡ answer_of (preview_answer text.now address instruction.now (length out.old)) }
    ensures out_after { out.new ≡ memory (preview_answer text.now address instruction.now (length out.old)) out.old }
{
    file_entry::check(Reader::Bound, 128, out.len(), text)?;
    bound_copy(text, address, instruction, out)
}
