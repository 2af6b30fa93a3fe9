// The reader: the routine of a text that passes the rows of the refusal table. The meaning is in specs/.
#![tactic(auto)]

ghost use Rattle.text.specs.Text.{lines};
ghost use Rattle.file_format.specs.Rows.{Passes};
ghost use Rattle.file_format.specs.Routine.{routine_of};
ghost use Rattle.file_reader.specs.HeldRoutine.{Holds, Limited};

use cells::Cell;
use file_format::{Column, Role, Section};
use file_parts::Answers;
use machine_state::State;

// A routine by value: its limits, its program, the state it starts in, the blocks in a flat array, its answers.
#[derive(Clone, Copy)]
pub struct Routine {
    pub budget: usize,
    pub tick: u64,
    pub code: [u32; 5131],
    pub start: State,
    pub blocks: [Cell; 128],
    pub answers: Answers,
}

// The routine of a text that passes.
pub fn routine_of(text: &[u8]) -> Routine
    requires { Passes (lines text.now) }
    ensures holds { Holds (routine_of (lines text.now)) result }
    ensures limited { Limited result }
{
    let places = file_layout::starts_of(text);
    let limits = file_layout::line_in(text, &places, Role::Values(Section::Limits, Column::Limit));
    let budget = file_parts::natural_at(file_layout::budgets(), limits, 0) as usize;
    let tick = file_parts::natural_at(file_layout::ticks(), limits, 1) as u64;
    let named = file_names::blocks_named(file_layout::line_in(
        text,
        &places,
        Role::Names(Section::Fields),
    ));
    let sizes = named.sizes;
    let present = named.count;
    let blocks = file_parts::fields_of(
        file_layout::line_in(text, &places, Role::Values(Section::Fields, Column::Cell)),
        sizes,
        present,
    );
    let body = file_layout::body_in(text, &places);
    let first = file_values::first_address(body);
    let mut code = [0u32; 5131];
    let rest = file_parts::put_lines(&mut code, text, &places, body);
    file_parts::put_head(&mut code, first, sizes, present);
    let start = file_parts::start_of(
        file_layout::line_in(text, &places, Role::Values(Section::Cells, Column::Cell)),
        first,
    );
    let answers = file_parts::answers_of(text::after_lines(rest, 1));
    Routine {
        budget: budget,
        tick: tick,
        code: code,
        start: start,
        blocks: blocks,
        answers: answers,
    }
}
