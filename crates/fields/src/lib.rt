// Reading a job: its virtual registers from bytes into lent numbers, as the parsers of the crate job say. All its fields are read in the crate
// whole_fields.
#![tactic(auto)]

pub mod totals;
pub mod virt;
