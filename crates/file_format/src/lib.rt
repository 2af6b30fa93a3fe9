// The routine file: its refusals, and the routine that it holds. The meaning is in specs/.
#![tactic(auto)]

// "Each section is a line of names, then lines of values in that order"
#[derive(Clone, Copy)]
pub enum Section {
    Limits,
    Kinds,
    Primitives,
    Cells,
    Fields,
    Instructions,
    Answers,
}

// The lines of values.
#[derive(Clone, Copy)]
pub enum Column {
    Limit,
    Cycles,
    Words,
    Extra,
    Cell,
}

// What a line holds: a section's names, a section's values, code line k or answer k (from 0).
#[derive(Clone, Copy)]
pub enum Role {
    Names(Section),
    Values(Section, Column),
    Code(usize),
    Answer(usize),
}

// What a word says where a cell is wanted: "number, `?` for unknown, `#k` for block k", `lo..hi`; or nothing of the kind.
#[derive(Clone, Copy)]
pub enum CellWord {
    Wrong,
    Unknown,
    Known(i64),
    Block(i64),
    Span(i64, i64),
}

// The rows of the refusal table that look at lines: 2, 3, 4, 5, 6, 13 and 11.
#[derive(Clone, Copy)]
pub enum Row {
    Layout,
    Range,
    Name,
    Price,
    Target,
    Forward,
    Known,
}
