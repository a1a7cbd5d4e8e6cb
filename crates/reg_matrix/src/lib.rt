// The reservation matrix: which virtual register or fixed operand has a register unit, and when (`reg_matrix.rs`, `live_range.rs`).
// These are the types that the definitions and every contract above speak of.
#![tactic(auto)]

ghost use Rattle.std.specs.Prelude.{◌≡◌};
ghost use Rattle.reg_matrix.specs.Refused.{number_of};

// 01, "The job": a part of a virtual register's live range, half-open, with the value that lives in it. A point's low two bits are its slot.
#[derive(Clone, Copy, Default)]
pub struct ValueSegment {
    pub from: u32,
    pub to: u32,
    pub value: u16,
}

// 01, "The printed sheet": who an entry is for: a virtual register, a fixed use of a value, or a fixed def. A held one has an index where it has
// replaced fixed uses (01, "Placing"): the place of the first among the fixed uses of its unit.
#[derive(Clone, Copy)]
pub enum Reservation {
    Held(u16, Option<u16>),
    FixedUse(u16),
    FixedDef,
}

// 01, "The printed sheet": an entry of the table. The range is half-open.
#[derive(Clone, Copy)]
pub struct Entry {
    pub unit: u8,
    pub from: u32,
    pub to: u32,
    pub reservation: Reservation,
}

// 01, "Check": what a check meets: a fixed reservation, which cannot be evicted, or a virtual register, which can. No Option: both are the source's,
// and `None` for a fixed one would say less.
#[derive(Clone, Copy)]
pub enum InterferenceKind {
    Fixed,
    VirtReg(u16),
}

// 01, "Check": a report, with the unit, the place of the segment among those that were asked about, the range, and what stands in the way.
#[derive(Clone, Copy)]
pub struct Interference {
    pub unit: u8,
    pub segment: usize,
    pub from: u32,
    pub to: u32,
    pub kind: InterferenceKind,
}

// 01, "What the stage answers": why a call is refused, in the paper's words and by its numbers.
#[derive(Clone, Copy, PartialEq, Eq, Debug)]
pub enum Refusal {
    ShortJob = 1,
    Tail = 2,
    UnfitMap = 3,
    OverLimit = 4,
    Empty = 5,
    BadPoint = 6,
    Unsorted = 7,
    UnknownNumber = 8,
    BadWeight = 9,
    Twin = 10,
    MixedSet = 11,
    CutUse = 12,
    WrongStanding = 13,
    Interference = 14,
    ShortBuffer = 15,
}

impl Refusal {
    // 01, "What the stage answers": "a refusal returns its number alone".
    pub fn number(self) -> u64
        ensures { result ≡ number_of self }
    {
        self as u64
    }
}
