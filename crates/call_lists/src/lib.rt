// Lists of calls on a loaded stage, given in lent numbers.
#![tactic(auto)]

pub mod lists;
