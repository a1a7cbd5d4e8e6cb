// What other crates pass by value, in lent words and in numbers, for the functions that firmware calls: a job's header in 8 words; a place in
// the sheet and how a virtual register stands as a number each.
#![tactic(auto)]

pub mod header;
pub mod numbers;
