// The search for the nearest number that moves the bound: each trial changes one cell of the start and explores again. The meaning is in
// specs/.
#![tactic(auto)]

ghost use Rattle.std.specs.Prelude.{◌≡◌, ◌<◌};
ghost use Rattle.machine_state.specs.HeldState.{whole};
ghost use Rattle.machine_state.specs.HeldProgram.{program_of, sizes_of};
ghost use Rattle.bound_theory.specs.Tree.{bound};
ghost use Rattle.nearest_changes.specs.Places.{replace_at};
ghost use Rattle.nearest_changes.specs.Changes.{nearest};
ghost use Rattle.nearest_changes.specs.Held.{Present, trial_of};
ghost use Rattle.nearest_search.specs.Search.{moved, search};
ghost use Rattle.nearest_search.specs.Held.{Searchable, MovedAs, of_sought, is_read, ReadAs, Reported, first_moved};

use bound_figures::Found;
use cells::Cell;
use machine_state::State;
use nearest_changes::{Change, Position};
use refusals::Refusal;

// Whether the bound that was found moves one of `figure` cycles: its CYCLES are others, or it is refused.
fn is_moved(figure: u64, found: Found) -> bool
    ensures { MovedAs figure found result }
{
    let verdict = found.verdict;
    match verdict {
        Ok(()) => found.cycles != figure,
        Err(_) => true,
    }
}

// Whether the bound is moved where the cell at p is c.
fn is_moved_by(
    code: &[u32; 5131],
    start: State,
    blocks: [Cell; 128],
    budget: usize,
    figure: u64,
    p: Position,
    c: Cell,
) -> bool
    requires { Searchable code.now start budget × Present p (whole (sizes_of code.now) blocks start) }
    ensures { result ≡ moved figure (bound (program_of code.now) budget (replace_at p c (whole (sizes_of code.now) blocks start))) }
{
    let state = nearest_changes::with_entry(code, start, blocks, p, c);
    let changed = nearest_changes::with_field(code, start, blocks, p, c);
    let found = bound_explorer::explore(code, state, changed, 32, budget);
    is_moved(figure, found)
}

// Whether the number at p is read: a handle of no block in its place moves the bound. Where it is not, no number there does.
fn is_read(
    code: &[u32; 5131],
    start: State,
    blocks: [Cell; 128],
    budget: usize,
    figure: u64,
    p: Position,
) -> bool
    requires { Searchable code.now start budget }
    ensures { result ≡ is_read (program_of code.now) budget figure (whole (sizes_of code.now) blocks start) p }
{
    let held = nearest_changes::number_at(code, start, blocks, p);
    let Some(_) = held else {
        return false;
    };
    is_moved_by(code, start, blocks, budget, figure, p, cells::handle(8))
}

// The same of every place.
fn cells_read(
    code: &[u32; 5131],
    start: State,
    blocks: [Cell; 128],
    budget: usize,
    figure: u64,
) -> [bool; 193]
    requires { Searchable code.now start budget }
    ensures { ReadAs (program_of code.now) budget figure (whole (sizes_of code.now) blocks start) result }
{
    let mut read = [false; 193];
    for k in 0..193 {
        let p = nearest_changes::position_of(k);
        read[k] = is_read(code, start, blocks, budget, figure, p);
    }
    read
}

// Trial j, where it moves the bound.
fn try_change(
    code: &[u32; 5131],
    start: State,
    blocks: [Cell; 128],
    budget: usize,
    figure: u64,
    j: usize,
) -> Option<Change>
    requires { Searchable code.now start budget × (j < 24704) }
    ensures { result ≡ first_moved (program_of code.now) budget figure (whole (sizes_of code.now) blocks start) (trial_of (whole (sizes_of code.now) blocks start) j) }
{
    let trial = nearest_changes::trial_at(code, start, blocks, j);
    let Some(change) = trial else {
        return None;
    };
    let p = change.place;
    let c = cells::exactly(change.value);
    if is_moved_by(code, start, blocks, budget, figure, p, c) {
        return Some(change);
    }
    None
}

// The first trial that moves the bound, among those of the cells that are read.
fn first_moved(
    code: &[u32; 5131],
    start: State,
    blocks: [Cell; 128],
    budget: usize,
    figure: u64,
    read: [bool; 193],
) -> Option<Change>
    requires { Searchable code.now start budget × Reported (program_of code.now) budget figure (whole (sizes_of code.now) blocks start) × ReadAs (program_of code.now) budget figure (whole (sizes_of code.now) blocks start) read }
    ensures { result ≡ nearest (λ t. moved figure (bound (program_of code.now) budget t)) (whole (sizes_of code.now) blocks start) }
{
    for j in 0..24704 {
        let k = j / 2 % 193;
        if read[k] {
            let hit = try_change(code, start, blocks, budget, figure, j);
            if let Some(change) = hit {
                return Some(change);
            }
        }
    }
    None
}

// The nearest change of a start that moves its bound, or the bound's refusal.
pub fn search(
    code: &[u32; 5131],
    start: State,
    blocks: [Cell; 128],
    budget: usize,
) -> Result<Option<Change>, Refusal>
    requires { Searchable code.now start budget }
    ensures { of_sought result ≡ search (program_of code.now) budget (whole (sizes_of code.now) blocks start) }
{
    let found = bound_explorer::explore(code, start, blocks, 32, budget);
    let figure = found.cycles;
    let verdict = found.verdict;
    if let Err(refusal) = verdict {
        return Err(refusal);
    }
    let read = cells_read(code, start, blocks, budget, figure);
    let hit = first_moved(code, start, blocks, budget, figure, read);
    match hit {
        Some(change) => Ok(Some(change)),
        None => Ok(None),
    }
}
