// One step of the walk along a path. The meaning is in specs/.
#![tactic(auto)]

ghost use Rattle.std.specs.Prelude.{◌≡◌};
ghost use Rattle.machine_state.specs.HeldProgram.{program_of, sizes_of, IsProgram};
ghost use Rattle.machine_state.specs.HeldState.{WellFormed};
ghost use Rattle.explain_walk.specs.Held.{StepsOn, unmade_walk, made_at};

use cells::Cell;
use machine_state::State;
use machine_step::{Next, Price};

// A step of the walk: whether it is made and whether it is STOP, what it costs, the decision as a path of its own, the path that is left,
// and the state and the blocks after it. Paths are numbers, as in `bound_figures`.
#[derive(Clone, Copy)]
pub struct Walked {
    pub made: bool,
    pub stops: bool,
    pub cycles: u64,
    pub words: u64,
    pub way: u64,
    pub rest: u64,
    pub state: State,
    pub blocks: [Cell; 128],
}

// A step that is not made, before `state` with `blocks`.
fn not_made(path: u64, state: State, blocks: [Cell; 128]) -> Walked
    ensures { result ≡ unmade_walk path state blocks }
{
    Walked {
        made: false,
        stops: false,
        cycles: 0,
        words: 0,
        way: 1,
        rest: path,
        state: state,
        blocks: blocks,
    }
}

// A step that is made at a price, to `state` with `blocks`.
fn made_at(
    stops: bool,
    price: Price,
    way: u64,
    rest: u64,
    state: State,
    blocks: [Cell; 128],
) -> Walked
    ensures { result ≡ made_at stops price way rest state blocks }
{
    Walked {
        made: true,
        stops: stops,
        cycles: price.cycles,
        words: price.words,
        way: way,
        rest: rest,
        state: state,
        blocks: blocks,
    }
}

// The step from `state` with `blocks`, by the first decision of `path` if it is an unknown branch.
pub fn walk(code: &[u32; 5131], path: u64, state: State, blocks: [Cell; 128]) -> Walked
    requires { IsProgram code.now × WellFormed state }
    ensures { StepsOn (program_of code.now) (sizes_of code.now) path state blocks result }
{
    let answer = cells::unknown();
    let stepped = machine_step::step(code, answer, state, blocks);
    let next = stepped.next;
    let reached = stepped.state;
    let left = stepped.blocks;
    match next {
        Next::Stuck => not_made(path, reached, left),
        Next::Stops(p) => made_at(true, p, 1, path, reached, left),
        Next::Goes(p) => made_at(false, p, 1, path, reached, left),
        Next::Opens(p, target, q) => {
            if path < 2 {
                return not_made(path, reached, left);
            }
            let rest = path / 2;
            if path % 2 == 0 {
                return made_at(false, p, 2, rest, reached, left);
            }
            let jumped = reached.jump(target);
            made_at(false, q, 3, rest, jumped, left)
        }
    }
}
