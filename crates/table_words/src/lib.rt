// The reservation table as it stands in lent numbers (`reg_matrix.rs`): its entries and fixed uses read from them, the ranges of a question and
// their refusals, and the search by halves. The crate matrix has the check over these, entries and placing what changes the table.
#![tactic(auto)]

pub mod buffers;
pub mod ranges;
pub mod search;
pub mod segments;
pub mod words;
