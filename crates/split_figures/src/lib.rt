// The bound by cases of a routine that was read. The meaning is in the specs of `split_theory`.
#![tactic(auto)]

ghost use Rattle.std.specs.Prelude.{◌≤◌, length};
ghost use Rattle.text.specs.Text.{lines};
ghost use Rattle.bound_figures.specs.HeldFigures.{Shows};
ghost use Rattle.file_reader.specs.HeldRoutine.{Limited};
ghost use Rattle.file_entry.specs.Held.{routine_in};
ghost use Rattle.report.specs.Held.{Shareable};
ghost use Rattle.split_theory.specs.Split.{split};
ghost use Rattle.split_cuts.specs.Cuts.{cuts_of};

use bound_figures::Found;
use file_reader::Routine;

// The routine's bound by the cases of an accepted text of cuts.
pub fn bounded(routine: Routine, cuts: &[u8]) -> Found
    requires { Limited routine × (length (lines cuts.now) ≤ 17) }
    ensures shows { Shows result (split (routine_in routine).code (cuts_of cuts.now) (routine_in routine).start) }
    ensures shareable { Shareable result }
{
    let code = routine.code;
    let blocks = routine.blocks;
    let start = routine.start;
    let held = split_cuts::cuts_of(cuts);
    let mut rows = [0; 201925];
    split_bound::split(&code, held, 0, start, blocks, &mut rows)
}
