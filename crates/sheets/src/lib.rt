// From a job's bytes to the lines printed (01, "The printed sheet"): a stage that is loaded and run with its job's budget, and its sheet line
// by line.
#![tactic(auto)]

pub mod sheet;
