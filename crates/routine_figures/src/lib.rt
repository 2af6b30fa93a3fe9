// The bound, the merging bound and the run of a routine that was read: its arrays lent to the loops. Entry points share them.
#![tactic(auto)]

ghost use Rattle.std.specs.Prelude.{◌≡◌};
ghost use Rattle.bound_theory.specs.Tree.{bound};
ghost use Rattle.bound_theory.specs.Run.{run};
ghost use Rattle.merge_theory.specs.Merge.{merged};
ghost use Rattle.run_loop.specs.HeldContract.{verdict_of};
ghost use Rattle.bound_figures.specs.HeldFigures.{Shows};
ghost use Rattle.file_reader.specs.HeldRoutine.{Limited};
ghost use Rattle.file_entry.specs.Held.{routine_in};
ghost use Rattle.report.specs.Held.{Shareable};

use bound_figures::Found;
use file_reader::Routine;
use run_loop::Ran;

// The routine's bound.
pub fn explored(routine: Routine) -> Found
    requires { Limited routine }
    ensures shows { Shows result (bound (routine_in routine).code (routine_in routine).budget (routine_in routine).start) }
    ensures shareable { Shareable result }
{
    let code = routine.code;
    let blocks = routine.blocks;
    let start = routine.start;
    bound_explorer::explore(&code, start, blocks, 32, routine.budget)
}

// The routine's merging bound.
pub fn swept(routine: Routine) -> Found
    requires { Limited routine }
    ensures shows { Shows result (merged (routine_in routine).code (routine_in routine).start) }
    ensures shareable { Shareable result }
{
    let code = routine.code;
    let blocks = routine.blocks;
    let start = routine.start;
    merge_sweep::merge(&code, start, blocks)
}

// The routine's run.
pub fn ran(routine: Routine) -> Ran
    requires { Limited routine }
    ensures { verdict_of result ≡ run (routine_in routine).code (routine_in routine).budget (routine_in routine).start (routine_in routine).answers }
{
    let code = routine.code;
    let blocks = routine.blocks;
    let start = routine.start;
    let answers = routine.answers;
    let values = answers.values;
    let given = answers.count;
    run_loop::run(&code, start, blocks, &values[..given], routine.budget)
}
