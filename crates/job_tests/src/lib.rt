// The tests of a whole job (10, 11 and 12 of document 01), over its decoded numbers.
#![tactic(auto)]

pub mod tests;
