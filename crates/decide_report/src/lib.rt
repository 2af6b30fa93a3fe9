// What is decided of a routine, and by which bound, put into lent memory. The meaning is in specs/.
#![tactic(auto)]

ghost use Rattle.std.specs.Prelude.{◌≡◌, ◌++◌, ◌+◌, ◌≤◌, length, drop};
ghost use Rattle.text_decimals.specs.Memory.{over};
ghost use Rattle.decide_report.specs.Decision.{decision_words, decision_text};
ghost use Rattle.decide_report.specs.Held.{report_in};

use bound_figures::Found;

// The bound that gives the figures of a decision.
#[derive(Clone, Copy)]
pub enum Source {
    First,
    Merging,
    Split,
}

// Puts what is decided and by which bound over out from `at` on, and answers where it ends.
fn put_ruling(out: &mut [u8], at: usize, source: Source, tick: u64, cycles: u64) -> usize
    requires { at + length (decision_words source tick cycles) ≤ length out.old }
    ensures value { result ≡ at + length (decision_words source tick cycles) }
    ensures out_after { out.new ≡ over out.old at (decision_words source tick cycles) }
{
    match source {
        Source::First => {
            if tick < cycles {
                text_decimals::put(out, at, b"OVER FIRST")
            } else {
                text_decimals::put(out, at, b"FITS FIRST")
            }
        }
        Source::Merging => {
            if tick < cycles {
                text_decimals::put(out, at, b"UNDECIDED MERGING")
            } else {
                text_decimals::put(out, at, b"FITS MERGING")
            }
        }
        Source::Split => {
            if tick < cycles {
                text_decimals::put(out, at, b"UNDECIDED SPLIT")
            } else {
                text_decimals::put(out, at, b"FITS SPLIT")
            }
        }
    }
}

// Puts the decision by the figures found at the start of out, and answers its length.
pub fn put_decision(out: &mut [u8], source: Source, tick: u64, found: Found) -> usize
    requires { length (decision_text source tick (report_in found)) ≤ length out.old }
    ensures value { result ≡ length (decision_text source tick (report_in found)) }
    ensures out_after { out.new ≡ decision_text source tick (report_in found) ++ drop (length (decision_text source tick (report_in found))) out.old }
{
    let steps = found.used as u64;
    let a = text_decimals::put(out, 0, b"DECISION BOUND CYCLES TICK WORDS DEPTH STEPS\n");
    let b = put_ruling(out, a, source, tick, found.cycles);
    let c = text_decimals::put(out, b, b" ");
    let d = text_decimals::put_decimal(out, c, found.cycles);
    let e = text_decimals::put(out, d, b" ");
    let f = text_decimals::put_decimal(out, e, tick);
    let g = text_decimals::put(out, f, b" ");
    let h = text_decimals::put_decimal(out, g, found.words);
    let i = text_decimals::put(out, h, b" ");
    let j = text_decimals::put_decimal(out, i, found.depth);
    let k = text_decimals::put(out, j, b" ");
    let l = text_decimals::put_decimal(out, k, steps);
    text_decimals::put(out, l, b"\n")
}
