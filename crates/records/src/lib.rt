// The records: what one says, as they start out, and after a direct call.
#![tactic(auto)]

ghost use Rattle.std.specs.Prelude.{◌≡◌};
ghost use Rattle.records.specs.Fields.{first_records};

use allocator::Assignment;

pub mod assignment;
pub mod changes;

// The initial standing of all virtual registers: unassigned, with the flag off.
pub fn first_records() -> [Assignment; 512]
    ensures { result ≡ first_records }
{
    [Assignment::Unassigned {
        evicted_for_preference: false,
    }; 512]
}
