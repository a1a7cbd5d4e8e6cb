// Storing a job in lent numbers: whether they have room for it, its lists over zeros, and its fixed reservations put into the table.
#![tactic(auto)]

pub mod buffers;
pub mod reserve;
pub mod store;
