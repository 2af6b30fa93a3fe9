// A routine's program as one array of words: its first address, how many lines it has, how many blocks, the sizes of eight blocks, and five
// words for each line.
ghost use Rattle.std.specs.Prelude.{◌≡◌};
ghost use Rattle.machine.specs.Machine.{fetch};
ghost use Rattle.machine_state.specs.HeldProgram.{program_of, of_fetched, IsProgram, Known};

// A line: the code of its operation, whether it pushes first, whether it calls a primitive, its operand, what it costs, and how much more
// where it is a conditional branch that jumps.
#[derive(Clone, Copy)]
pub struct Line {
    pub code: u8,
    pub pushes: bool,
    pub calls: bool,
    pub operand: i32,
    pub cycles: u32,
    pub words: u32,
    pub extra: u32,
}

// The line at an address. The first word of a line is its operation's code, 32 more where the line pushes first, and 64 more where it calls a
// primitive; then come its operand in two's complement, its cycles, its words and what more it costs where it jumps.
pub fn fetch(code: &[u32; 5131], at: usize) -> Option<Line>
    requires { IsProgram code.now }
    ensures result_value { of_fetched result ≡ fetch (program_of code.now) at }
    ensures known { Known result }
{
    let first = code[0] as usize;
    if at < first {
        return None;
    }
    let j = at - first;
    if code[1] as usize <= j {
        return None;
    }
    let k = 11 + j * 5;
    let word = code[k];
    Some(Line {
        code: (word % 32) as u8,
        pushes: 32 <= word % 64,
        calls: 64 <= word,
        operand: numbers::signed(code[k + 1]),
        cycles: code[k + 2],
        words: code[k + 3],
        extra: code[k + 4],
    })
}
