// A dequeue carried out (`allocator/mod.rs`): over the job as loading leaves it, the state that is lent, and the last registers, with the records in
// words.
#![tactic(auto)]

pub mod carry;
