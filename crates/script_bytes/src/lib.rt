// What a script is read by and printed by: bytes and numbers of standard input, and lines to standard output.
#![tactic(auto)]

pub mod input;
pub mod output;
