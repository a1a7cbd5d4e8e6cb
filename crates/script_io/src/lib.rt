// What a script asks on its way: questions, read with what they need and printed with their answers.
#![tactic(auto)]

pub mod questions;
