// The reservation matrix in code (`reg_matrix.rs`): placing and evicting on every unit of a register. Beside its own laws it has those of the check
// on a table that stands in what is lent, as they speak of the same cells.
#![tactic(auto)]

pub mod assign;
