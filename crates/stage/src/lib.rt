// The register stage in code: eviction and the searches of a dequeue (`allocator/mod.rs`, `evict.rs`) over the order of candidates and beside the
// queue, which are crates of their own below it. Its definitions are those of the crate allocator, whose table of cases and theorem each must-fail
// edit of a definition checks without this code.
#![tactic(auto)]

pub mod allocate;
pub mod evict;
pub mod search;
