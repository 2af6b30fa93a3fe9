// The printed report and the line of a refusal, written into lent memory. The meaning is in specs/.
#![tactic(auto)]

ghost use Rattle.std.specs.Prelude.{◌≡◌, ◌++◌, ◌+◌, ◌≤◌, length, drop};
ghost use Rattle.text_decimals.specs.Memory.{over};
ghost use Rattle.answers.specs.Answers.{memory, answer_of};
ghost use Rattle.report.specs.Report.{share, letter, path_text, figures, bound_text, run_text, refusal_line};
ghost use Rattle.report.specs.HeldPath.{decision, decode, report_of};
ghost use Rattle.report.specs.Held.{Shareable, Printable, found_answer};

use bound_figures::Found;
use refusals::Refusal;

// SHARE: the cycles in thousandths of a tick, to the nearest whole number, and at an exact half to the even one.
pub fn share(tick: u64, cycles: u64) -> u64
    requires { (1 ≤ tick) × (tick ≤ 4000000000) × (cycles ≤ 8589934592000000) }
    ensures { result ≡ share tick cycles }
{
    let whole = cycles * 1000 / tick;
    let twice = 2 * (cycles * 1000 % tick);
    if twice < tick {
        whole
    } else if tick < twice {
        whole + 1
    } else {
        whole + whole % 2
    }
}

// The letter of a decision: 0 is not taken.
fn letter(bit: u64) -> u8
    ensures { result ≡ letter (decision bit) }
{
    if bit == 0 { b'N' } else { b'T' }
}

// Puts the path over out from `at` on, and answers where it ends.
pub fn put_path(out: &mut [u8], at: usize, path: u64) -> usize
    requires { at + length (path_text (decode path)) ≤ length out.old }
    ensures value { result ≡ at + length (path_text (decode path)) }
    ensures out_after { out.new ≡ over out.old at (path_text (decode path)) }
{
    if path < 2 {
        return text_decimals::put(out, at, b"-");
    }
    let mut rest = path;
    let mut e = at;
    // A while: the letters are the bits of the path, the lowest first, up to the highest, which ends them.
    while 2 <= rest {
        out[e] = letter(rest % 2);
        rest /= 2;
        e += 1;
    }
    e
}

// Puts the four figures over out from `at` on, and answers where they end.
fn put_figures(out: &mut [u8], at: usize, cycles: u64, words: u64, depth: u64, steps: u64) -> usize
    requires { at + length (figures (report_of cycles words depth steps 1)) ≤ length out.old }
    ensures value { result ≡ at + length (figures (report_of cycles words depth steps 1)) }
    ensures out_after { out.new ≡ over out.old at (figures (report_of cycles words depth steps 1)) }
{
    let a = text_decimals::put_decimal(out, at, cycles);
    let b = text_decimals::put(out, a, b" ");
    let c = text_decimals::put_decimal(out, b, words);
    let d = text_decimals::put(out, c, b" ");
    let e = text_decimals::put_decimal(out, d, depth);
    let f = text_decimals::put(out, e, b" ");
    text_decimals::put_decimal(out, f, steps)
}

// Puts the bound's report at the start of out, and answers its length.
pub fn put_bound(
    out: &mut [u8],
    tick: u64,
    cycles: u64,
    words: u64,
    depth: u64,
    steps: u64,
    path: u64,
) -> usize
    requires le_tick { (1 ≤ tick) × (tick ≤ 4000000000) × (cycles ≤ 8589934592000000) }
    requires path_in_bounds { length (bound_text tick (report_of cycles words depth steps path)) ≤ length out.old }
    ensures value { result ≡ length (bound_text tick (report_of cycles words depth steps path)) }
    ensures out_after { out.new ≡ bound_text tick (report_of cycles words depth steps path) ++ drop (length (bound_text tick (report_of cycles words depth steps path))) out.old }
{
    let a = text_decimals::put(out, 0, b"CYCLES WORDS DEPTH STEPS SHARE PATH\n");
    let b = put_figures(out, a, cycles, words, depth, steps);
    let c = text_decimals::put(out, b, b" ");
    let n = share(tick, cycles);
    let d = text_decimals::put_decimal(out, c, n);
    let e = text_decimals::put(out, d, b" ");
    let f = put_path(out, e, path);
    text_decimals::put(out, f, b"\n")
}

// Puts the run's report at the start of out, and answers its length.
pub fn put_run(out: &mut [u8], cycles: u64, words: u64, depth: u64, steps: u64) -> usize
    requires { length (run_text (report_of cycles words depth steps 1)) ≤ length out.old }
    ensures value { result ≡ length (run_text (report_of cycles words depth steps 1)) }
    ensures out_after { out.new ≡ run_text (report_of cycles words depth steps 1) ++ drop (length (run_text (report_of cycles words depth steps 1))) out.old }
{
    let a = text_decimals::put(out, 0, b"CYCLES WORDS DEPTH STEPS\n");
    let b = put_figures(out, a, cycles, words, depth, steps);
    text_decimals::put(out, b, b"\n")
}

// Puts the line of a refusal at the start of out, and answers its length.
pub fn put_refusal(out: &mut [u8], number: u64, place: u64) -> usize
    requires { length (refusal_line number place) ≤ length out.old }
    ensures value { result ≡ length (refusal_line number place) }
    ensures out_after { out.new ≡ refusal_line number place ++ drop (length (refusal_line number place)) out.old }
{
    let a = text_decimals::put(out, 0, b"REFUSED ");
    let b = text_decimals::put_decimal(out, a, number);
    let c = text_decimals::put(out, b, b" ");
    let d = text_decimals::put_decimal(out, c, place);
    text_decimals::put(out, d, b"\n")
}

// What was found of a routine with this TICK: its report, or its refusal.
pub fn put_found(found: Found, tick: u64, out: &mut [u8]) -> Result<usize, Refusal>
    requires shareable { Shareable found }
    requires printable { Printable (found_answer tick found) tick (length out.old) }
    ensures value { result ≡ answer_of (found_answer tick found) }
    ensures out_after { out.new ≡ memory (found_answer tick found) out.old }
{
    let steps = found.used as u64;
    found.verdict?;
    let n = put_bound(
        out,
        tick,
        found.cycles,
        found.words,
        found.depth,
        steps,
        found.path,
    );
    Ok(n)
}
