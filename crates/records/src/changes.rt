// A record after its number is placed or evicted by a direct call.
ghost use Rattle.std.specs.Prelude.{◌≡◌, ◌<◌};
ghost use Rattle.std.specs.Float.{binary32};
ghost use Rattle.std.specs.Float.Ieee.{of_bits};
ghost use Rattle.allocator.specs.declared.Assignment.TheVariants.{Assigned, Unassigned};
ghost use Rattle.records.specs.Fields.{flag_in};

use crate::assignment::{flag_of, weight_in};
use allocator::Assignment;

// The record of a number that takes the register with the weight of these bits. It keeps its flag.
pub fn placed(before: Assignment, reg: u8, weight: u32) -> Assignment
    ensures { weight < 0x7F80_0000 → result ≡ Assigned (flag_in before) reg (of_bits binary32 weight) }
{
    let flag = flag_of(before);
    Assignment::Assigned {
        evicted_for_preference: flag,
        reg,
        preference_weight: weight_in(weight),
    }
}

// The record of a number that loses its register. It keeps its flag.
pub fn waiting(before: Assignment) -> Assignment
    ensures { result ≡ Unassigned (flag_in before) }
{
    Assignment::Unassigned {
        evicted_for_preference: flag_of(before),
    }
}
