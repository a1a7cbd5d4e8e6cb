// Calls on a loaded stage: a run with a budget; a number is placed in a register that the caller names, or evicted. What is refused
// is answered alone and changes nothing.
#![tactic(auto)]

pub mod direct;
pub mod runs;
