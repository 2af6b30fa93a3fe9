// The machine's state by value, the place of a field, and the program. The meaning is in specs/.
#![tactic(auto)]

ghost use Rattle.std.specs.Prelude.{◌≡◌, ◌+◌, ◌<◌, ◌≤◌, length, get_or};
ghost use Rattle.cells.specs.Try.{done};
ghost use Rattle.machine.specs.Machine.{push, pop, store, load, advance, jump};
ghost use Rattle.machine_state.specs.HeldProgram.{sizes_of, IsProgram};
ghost use Rattle.machine_state.specs.HeldRegisters.{registers_of, with_stack};
ghost use Rattle.machine_state.specs.HeldState.{view, WellFormed, slot};

use cells::Cell;
use registers::Registers;

pub mod code;
pub mod registers;

// "The state is an address, an accumulator, a stack of at most 64 cells (entry 0 on top)". Of the cells of `stack` the first `free` are
// unused; the others are the entries, the top entry first. The blocks lie beside the state.
#[derive(Clone, Copy)]
pub struct State {
    pub at: usize,
    pub accu: Cell,
    pub free: usize,
    pub stack: [Cell; 64],
}

impl State {
    // With the accumulator as a new top entry.
    pub fn push(self) -> Self
        requires { WellFormed self × (0 < self.free) }
        ensures result_value { done (view result) ≡ push (view self) }
        ensures well_formed { WellFormed result }
    {
        let free = self.free - 1;
        let accu = self.accu;
        let mut stack = self.stack;
        stack[free] = accu;
        State {
            at: self.at,
            accu: accu,
            free: free,
            stack: stack,
        }
    }

    // Without its first `n` entries.
    pub fn pop(mut self, n: usize) -> Self
        requires { WellFormed self × (self.free + n ≤ 64) }
        ensures result_value { done (view result) ≡ pop n (view self) }
        ensures well_formed { WellFormed result }
    {
        self.free = self.free + n;
        self
    }

    // With the accumulator as entry `n`, and 0 in the accumulator.
    pub fn store(self, n: usize) -> Self
        requires { WellFormed self × (self.free + n < 64) }
        ensures result_value { done (view result) ≡ store n (view self) }
        ensures well_formed { WellFormed result }
    {
        let entry = self.free + n;
        let accu = self.accu;
        let mut stack = self.stack;
        stack[entry] = accu;
        let zero = cells::exactly(0);
        State {
            at: self.at,
            accu: zero,
            free: self.free,
            stack: stack,
        }
    }

    // With `c` in the accumulator.
    pub fn load(self, c: Cell) -> Self
        requires { WellFormed self }
        ensures result_value { view result ≡ load c (view self) }
        ensures well_formed { WellFormed result }
    {
        let stack = self.stack;
        State {
            at: self.at,
            accu: c,
            free: self.free,
            stack: stack,
        }
    }

    // At the next address.
    pub fn advance(mut self) -> Self
        requires { WellFormed self × (self.at < 65536) }
        ensures result_value { view result ≡ advance (view self) }
        ensures well_formed { WellFormed result }
    {
        self.at = self.at + 1;
        self
    }

    // At the address `place`.
    pub fn jump(mut self, place: usize) -> Self
        requires { WellFormed self }
        ensures result_value { view result ≡ jump place (view self) }
        ensures well_formed { WellFormed result }
    {
        self.at = place;
        self
    }

    // Of these registers, with this stack.
    pub fn of(registers: Registers, stack: [Cell; 64]) -> Self
        ensures { result ≡ with_stack registers stack }
    {
        let accu = cells::same(registers.accu);
        State {
            at: registers.at,
            accu: accu,
            free: registers.free,
            stack: stack,
        }
    }

    // What stands beside the stack.
    pub fn registers(self) -> Registers
        ensures { result ≡ registers_of self }
    {
        let accu = cells::same(self.accu);
        Registers {
            at: self.at,
            accu: accu,
            free: self.free,
        }
    }
}

// How many blocks there are.
pub fn count_blocks(code: &[u32; 5131]) -> usize
    requires { IsProgram code.now }
    ensures { result ≡ length (sizes_of code.now) }
{
    code[2] as usize
}

// How many fields block `k` has.
pub fn size_of(code: &[u32; 5131], k: usize) -> usize
    requires { IsProgram code.now × (k < length (sizes_of code.now)) }
    ensures { result ≡ get_or (sizes_of code.now) k 0 }
{
    code[k + 3] as usize
}

// The place of field `n` of the block that `a` handles.
pub fn slot_of(code: &[u32; 5131], a: Cell, n: usize) -> Option<usize>
    requires { IsProgram code.now }
    ensures { result ≡ slot (sizes_of code.now) a n }
{
    let Some(handled) = cells::block(a) else {
        return None;
    };
    let k = handled as usize;
    if count_blocks(code) <= k {
        return None;
    }
    if size_of(code, k) <= n {
        return None;
    }
    Some(k * 16 + n)
}
