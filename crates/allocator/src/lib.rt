// The allocator: candidates, queue, eviction, runs and direct calls (`allocator/mod.rs`, `order.rs`, `queue.rs`, `evict.rs`).
// These are the types that the definitions and contracts speak of.
#![tactic(auto)]

// 01, "Where the Rust's forms give way": how a virtual register stands. The flag is on once it has evicted another for its preference; the
// weight says how much it likes the register that it has.
#[derive(Clone, Copy, PartialEq, Debug)]
pub enum Assignment {
    Assigned {
        evicted_for_preference: bool,
        reg: u8,
        preference_weight: f32,
    },
    Unassigned {
        evicted_for_preference: bool,
    },
    Dead,
}

// 01, "Candidates": a register to try, with the cost if it is not chosen.
#[derive(Clone, Copy, PartialEq, Debug, Default)]
pub struct CandidateReg {
    pub reg: u8,
    pub preference_weight: f32,
}

// 01, "Costs": the sum of the preference weights, and the greatest spill weight, of those whom a candidate would evict. Compared in this order.
#[derive(Clone, Copy, PartialEq, PartialOrd, Debug, Default)]
pub struct EvictCost {
    pub preference_weight: f32,
    pub spill_weight: f32,
}

// 01, "Queue": in which stage a number is queued.
#[derive(Clone, Copy, PartialEq, Eq, Debug)]
pub enum Stage {
    Evict,
    Split,
}

// 01, "What the stage answers": how a run ended, by the numbers of its words.
#[derive(Clone, Copy, PartialEq, Eq, Debug)]
pub enum Ending {
    Done = 1,
    Spent = 2,
    TooMany = 3,
}
