// Runs the bound and the run over the routine files in standard input, the cases on the edges and the small examples of the refusal
// table, and prints the name of each and what the two say of it.
// A case in standard input is a line `NAME LENGTH`, then LENGTH bytes of text and a line feed.
#![tactic(auto)]

mod texts;

fn main(rt: HostRuntime) {
    // where a read fails, the cases before it are told
    let mut input = [0u8; 65536];
    let n = console::read_text(&rt, &mut input).length;
    texts::tell_all(&rt, &input[..n]);
}
