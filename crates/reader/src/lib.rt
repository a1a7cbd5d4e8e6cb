// Reading a job: its numbers from bytes, each as the parsers of the crate job say. Tables of them are read by the crates above.
#![tactic(auto)]

pub mod read;
