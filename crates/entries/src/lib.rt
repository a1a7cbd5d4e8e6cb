// The reservation matrix in code (`reg_matrix.rs`): entries put in and taken out, and fixed reservations. The crates segment_moves and placing
// have placing and evicting, which are made of these; the crate unit_free has the spare question.
#![tactic(auto)]

pub mod reserve;
pub mod table;
