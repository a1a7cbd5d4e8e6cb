// The stage for firmware. C and Rust call these functions by their names through the static library of the crate pezhkadu_c, whose parameters are
// flat, and which answers a refusal by its number.
// What the other crates pass by value stands in lent words here: a job's header in 8 of them, the records in 512. The parameters are C's, with the
// slices of a job, of a state and of a table as a struct each: eight at most.
#![tactic(auto)]

pub mod direct;
pub mod loading;
pub mod reading;
pub mod running;
