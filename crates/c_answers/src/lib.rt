// An answer told to C as one number. The meaning is in specs/.
#![tactic(auto)]

ghost use Rattle.std.specs.Prelude.{◌≡◌, Err};
ghost use Rattle.c_answers.specs.Told.{word_of};

use refusals::Refusal;

// An answer as one number.
pub fn word_of(answer: Result<usize, Refusal>) -> u64
    ensures { result ≡ word_of answer }
{
    match answer {
        Ok(n) => n as u64,
        Err(r) => refusal_word(r),
    }
}

// A refusal as one number.
fn refusal_word(r: Refusal) -> u64
    ensures { result ≡ word_of (Err r) }
{
    let number = refusals::number(r);
    let place = refusals::place(r);
    9223372036854775808 + number * 4294967296 + place % 4294967296
}
