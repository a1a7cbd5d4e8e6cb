// Jobs: from bytes to what a job holds, or to the number of one refusal. These are the types that the definitions speak of.
#![tactic(auto)]

// 01, "The job": a register that a virtual register would like, with the cost of not getting it.
#[derive(Clone, Copy)]
pub struct Hint {
    pub reg: u8,
    pub weight: f32,
}

// 01, "The job": the fields of a fixed reservation, as they stand in a job.
#[derive(Clone, Copy)]
pub struct FixedFields {
    pub map: u8,
    pub unit: u8,
    pub from: u32,
    pub to: u32,
    pub value: u16,
}

// 01, "The job": what stands before the hints of a virtual register.
#[derive(Clone, Copy)]
pub struct VirtRegFields {
    pub map: u8,
    pub class: u8,
    pub value_set: u16,
    pub spill_weight: f32,
    pub size: u32,
}

// 01, "The job": what goes by value of a loaded job: how many registers, classes and virtual registers there are, the probe range, which the spare
// line asks about, if the job has one, and the budget.
#[derive(Clone, Copy)]
pub struct JobHeader {
    pub regs: u8,
    pub classes: u8,
    pub virt_regs: u16,
    pub probe: Option<(u32, u32)>,
    pub budget: u32,
}

// Where the lists of a loaded job begin in the slices that are lent for it, one slice for each kind of number (specs/Layout.antt): j64, j32, j16 and
// j8 for numbers of so many bits, jf for weights. In j64: the registers' maps at place 0, the fixed uses.
pub const USES: usize = 64;

// In j32: where segments start at place 0, where they end, the sizes.
pub const TOS: usize = 512;

pub const SIZES: usize = 1024;

// In j16: where the classes' registers begin at place 0, the sets, the segments' values, where hints and segments begin.
pub const SETS: usize = 17;

pub const VALUES: usize = 529;

pub const HINT_STARTS: usize = 1041;

pub const SEGMENT_STARTS: usize = 1554;

// In j8: the classes' registers at place 0, the classes, the hints' registers.
pub const CLASSES: usize = 1024;

pub const HINT_REGS: usize = 1536;

// In jf: the spill weights at place 0, the hints' weights.
pub const HINT_WEIGHTS: usize = 512;
