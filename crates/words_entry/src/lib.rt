// The import and the export on lent memory. The meaning is in specs/.
#![tactic(auto)]

ghost use Rattle.std.specs.Prelude.{◌≡◌, length};
ghost use Rattle.answers.specs.Answers.{memory, answer_of};
ghost use Rattle.words_entry.specs.Answers.{import_answer, export_answer};

use file_check::Reader;
use refusals::Refusal;

// The import of the compiler's words: the lines of code in the lent memory, or a refusal.
pub fn import(words: &[u8], primitives: &[u8], out: &mut [u8]) -> Result<usize, Refusal>
    ensures value { result ≡ answer_of (import_answer words.now primitives.now (length out.old)) }
    ensures out_after { out.new ≡ memory (import_answer words.now primitives.now (length out.old)) out.old }
{
    if out.len() < 32768 {
        return Err(Refusal::ReportMemory);
    }
    words_import::check_import(words, primitives)?;
    Ok(words_import::put_import(words, primitives, out))
}

// The export of a routine file: the words of its code in the lent memory, or a refusal.
pub fn export(text: &[u8], out: &mut [u8]) -> Result<usize, Refusal>
    ensures value { result ≡ answer_of (export_answer text.now (length out.old)) }
    ensures out_after { out.new ≡ memory (export_answer text.now (length out.old)) out.old }
{
    file_entry::check(Reader::Bound, 32768, out.len(), text)?;
    Ok(words_export::put_export(text, out))
}
