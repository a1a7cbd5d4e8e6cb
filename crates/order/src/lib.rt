// The order in which registers are tried for a virtual register (`order.rs`): the hinted ones by falling weight, the one last given to its set,
// then its class.
#![tactic(auto)]

pub mod allocation_order;
pub mod hinted;

// A virtual register's hints, of which the first 64 count: the register of each, and its weight, in two slices as a job has them.
#[derive(Clone, Copy)]
pub struct Hints<'a> {
    pub regs: &'a [u8],
    pub weights: &'a [f32],
}
