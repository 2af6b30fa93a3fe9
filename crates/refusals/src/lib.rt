// The refusals of every part of the analyser. Their numbers and places are in specs/Refusals.antt.
#![tactic(auto, unfolding(crate::specs::Refusals::number, crate::specs::Refusals::place))]

ghost use Rattle.std.specs.Prelude.{◌≡◌};
ghost use Rattle.refusals.specs.Refusals.{number, place};

// A case for each row of the refusal table; the value held is a line of the routine file, an address of the code, or the index of a word.
#[derive(Clone, Copy)]
pub enum Refusal {
    ReportMemory,
    TextLength,
    Layout(u32),
    OutOfRange(u32),
    BadName(u32),
    Unpriced(u32),
    NoTarget(u32),
    Backward(u32),
    UnknownCell(u32),
    Stuck(usize),
    Openings(usize),
    Spent(usize),
    BadWord(usize),
    NoMeeting(usize),
}

// The number of a refusal.
pub fn number(refusal: Refusal) -> u64
    ensures { result ≡ number refusal }
{
    match refusal {
        Refusal::ReportMemory => 10,
        Refusal::TextLength => 1,
        Refusal::Layout(_) => 2,
        Refusal::OutOfRange(_) => 3,
        Refusal::BadName(_) => 4,
        Refusal::Unpriced(_) => 5,
        Refusal::NoTarget(_) => 6,
        Refusal::Backward(_) => 13,
        Refusal::UnknownCell(_) => 11,
        Refusal::Stuck(_) => 7,
        Refusal::Openings(_) => 8,
        Refusal::Spent(_) => 9,
        Refusal::BadWord(_) => 12,
        Refusal::NoMeeting(_) => 14,
    }
}

// The place of a refusal.
pub fn place(refusal: Refusal) -> u64
    ensures { result ≡ place refusal }
{
    match refusal {
        Refusal::ReportMemory => 0,
        Refusal::TextLength => 0,
        Refusal::Layout(line) => line as u64,
        Refusal::OutOfRange(line) => line as u64,
        Refusal::BadName(line) => line as u64,
        Refusal::Unpriced(line) => line as u64,
        Refusal::NoTarget(line) => line as u64,
        Refusal::Backward(line) => line as u64,
        Refusal::UnknownCell(line) => line as u64,
        Refusal::Stuck(address) => address as u64,
        Refusal::Openings(address) => address as u64,
        Refusal::Spent(address) => address as u64,
        Refusal::BadWord(index) => index as u64,
        Refusal::NoMeeting(address) => address as u64,
    }
}
