// Calls over a lent slice of segment structs: placing, evicting and a check take at most 512, and a check no more than its caller says, as
// segment_lists does.
#![tactic(auto)]

ghost use Rattle.std.specs.Prelude.{◌≡◌, ltb, length};
ghost use Rattle.thin.specs.Answers.{max_segments};

use reg_matrix::ValueSegment;

pub mod assign;
pub mod check;

// Whether there are more segments than a job may have.
fn is_long(segments: &[ValueSegment]) -> bool
    ensures { result ≡ ltb max_segments (length segments.now) }
{
    512 < segments.len()
}
