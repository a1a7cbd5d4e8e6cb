// The reservation matrix in code (`reg_matrix.rs`): the check of a register, over the words of the crate table_words; the crate placing has what
// changes the table. Its definitions are those of the crate reg_matrix, whose tables and laws each must-fail edit of a definition checks
// without this code.
#![tactic(auto)]

use reg_matrix::Interference;

pub mod check;
mod meeting;

// A position of a check: the units of the register's map that are still to be walked, the current one the lowest; the segment and the
// entry that are compared next; once that entry is reported, the place of the next fixed use under it; and which form is asked for.
#[derive(Clone, Copy)]
pub struct Cursor {
    pub units: u64,
    pub segment: usize,
    pub entry: usize,
    pub inner: Option<usize>,
    pub full: bool,
}

// One step of a check: it meets something and goes on, goes on, or ends. Three cases, each with its own meaning, so no Option.
#[derive(Clone, Copy)]
pub enum Move {
    Meets(Interference, Cursor),
    Goes(Cursor),
    Ends,
}
