// The lines of a transcript (docs/SCRIPT.md) that show the state after a call, each stored from the front of a line that the caller lends. Their
// definitions are those of the crates reg_matrix (Lines) and allocator (Script). What a line has no room for is not stored; 16,384 bytes are enough
// for every line of a loaded job. What calls answer is printed by the crate answers.
#![tactic(auto)]

pub mod states;
