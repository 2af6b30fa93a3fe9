// The state beside its stack.
ghost use Rattle.std.specs.Prelude.{◌≡◌, ◌+◌, ◌<◌, ◌≤◌};
ghost use Rattle.machine_state.specs.HeldRegisters.{pushed, popped, stored, loaded, advanced, placed};

use cells::Cell;

// The state beside its stack: for a loop that keeps the stack in an array of its own, and writes there the one cell that a push or a store
// writes.
#[derive(Clone, Copy)]
pub struct Registers {
    pub at: usize,
    pub accu: Cell,
    pub free: usize,
}

impl Registers {
    // With one entry more, for the caller to write.
    pub fn push(mut self) -> Self
        requires { 0 < self.free }
        ensures { result ≡ pushed self }
    {
        self.free = self.free - 1;
        self
    }

    // The place of the top entry.
    pub fn top(self) -> usize
        ensures { result ≡ self.free }
    {
        self.free
    }

    // Without the first `n` entries.
    pub fn pop(mut self, n: usize) -> Self
        requires { self.free + n ≤ 64 }
        ensures { result ≡ popped n self }
    {
        self.free = self.free + n;
        self
    }

    // With 0 in the accumulator, which the caller has written.
    pub fn store(self) -> Self
        ensures { result ≡ stored self }
    {
        let zero = cells::exactly(0);
        self.load(zero)
    }

    // With `c` in the accumulator.
    pub fn load(self, c: Cell) -> Self
        ensures { result ≡ loaded c self }
    {
        let accu = cells::same(c);
        Registers {
            at: self.at,
            accu: accu,
            free: self.free,
        }
    }

    // At the next address.
    pub fn advance(mut self) -> Self
        requires { self.at < 65536 }
        ensures { result ≡ advanced self }
    {
        self.at = self.at + 1;
        self
    }

    // At the address `place`.
    pub fn jump(mut self, place: usize) -> Self
        ensures { result ≡ placed place self }
    {
        self.at = place;
        self
    }
}
