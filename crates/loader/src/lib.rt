// Loading in code: a job's bytes into lent numbers with its table. Its definitions are those of the crate job, whose table of refusals
// each must-fail edit of a definition checks without this code.
#![tactic(auto)]

pub mod load;
