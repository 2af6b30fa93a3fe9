// The one way in: whether a text is read by an entry point, where so many bytes are lent. The meaning is in specs/.
#![tactic(auto)]

ghost use Rattle.std.specs.Prelude.{◌≡◌};
ghost use Rattle.file_check.specs.HeldChecks.{read_by, check_of};
ghost use Rattle.file_entry.specs.Held.{admitted};

use file_check::Reader;
use refusals::Refusal;

// Whether a text is read: refusal 10 where fewer bytes are lent than the limit, then 1 to 6, 13 and, for a run, 11. Where it is accepted,
// `file_reader::routine_of` makes its routine.
pub fn check(reader: Reader, limit: usize, lent: usize, text: &[u8]) -> Result<(), Refusal>
    ensures { result ≡ check_of (admitted limit lent (read_by reader text.now)) }
{
    if lent < limit {
        return Err(Refusal::ReportMemory); // before the text is read
    }
    file_check::check(reader, text)
}
