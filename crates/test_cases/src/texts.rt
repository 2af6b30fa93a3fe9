// Prints what the bound and the run say of the texts in a list of cases.
use refusals::Refusal;

// Prints the line of a refusal.
fn print_refusal(rt: &HostRuntime, refusal: Refusal) {
    let number = refusals::number(refusal);
    let place = refusals::place(refusal);
    let _ = println!(rt; "REFUSED {number} {place}");
}

// Prints the first n bytes.
fn print_report(rt: &HostRuntime, n: usize, bytes: &[u8]) {
    if n <= bytes.len() {
        console::write(rt, &bytes[..n]);
    }
}

// Prints the report, which is at the start of bytes, or the line of the refusal.
fn print(rt: &HostRuntime, answer: Result<usize, Refusal>, bytes: &[u8]) {
    match answer {
        Ok(n) => print_report(rt, n, bytes),
        Err(refusal) => print_refusal(rt, refusal),
    }
}

// Prints the answer of the bound, then that of the run, with out lent for the report.
fn show(rt: &HostRuntime, text: &[u8], out: &mut [u8]) {
    let bounded = bound_entry::bound(text, out);
    print(rt, bounded, out);
    let ran = run_entry::run(text, out);
    print(rt, ran, out);
}

// Prints the name of a case and the answers to its text. The case lent_127 lends a byte too few.
fn tell(rt: &HostRuntime, name: &[u8], text: &[u8]) {
    let mut output = rt.stdout();
    console::write_all(&mut output, name);
    console::write_all(&mut output, b"\n");
    let mut report = [0u8; 128];
    if text::same(name, b"lent_127") {
        show(rt, text, &mut report[..127]);
    } else {
        show(rt, text, &mut report);
    }
}

// Tells of the first case, and answers how many bytes it takes; 0 where it is not whole.
fn tell_case(rt: &HostRuntime, cases: &[u8]) -> usize {
    let e = text::piece_length(cases, b'\n');
    if cases.len() <= e {
        return 0;
    }
    let line = &cases[0..e];
    let rest = &cases[e + 1..];
    let n = file_values::natural_in(0, 524288, text::word_at(line, 1)) as usize;
    if rest.len() <= n {
        return 0;
    }
    if rest[n] != b'\n' {
        return 0;
    }
    tell(rt, text::word_at(line, 0), &rest[0..n]);
    e + n + 2
}

// Tells of each case, up to the first that is not whole.
pub fn tell_all(rt: &HostRuntime, cases: &[u8]) {
    let mut at = 0;
    // A while: each case says how many bytes it takes, and `at` goes on by those.
    while at < cases.len() {
        let size = tell_case(rt, &cases[at..]);
        if size == 0 {
            return;
        }
        if cases.len() - at < size {
            return;
        }
        at += size;
    }
}
