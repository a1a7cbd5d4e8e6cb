// The check asked by itself, over segment structs.
ghost use Rattle.std.specs.Prelude.{◌≡◌, min, ltb, length, take};
ghost use Rattle.matrix.specs.Walk.{Answered, entered};
ghost use Rattle.reg_matrix.specs.Refused.{numbered};
ghost use Rattle.table_words.specs.Segments.{froms_of, tos_of, values_of};
ghost use Rattle.thin.specs.Answers.{max_segments, lent_to, check_answer};

use crate::is_long;
use matrix::Cursor;
use matrix::check::{self, InterferenceQuery};
use reg_matrix::{Interference, Refusal, ValueSegment};
use table_words::buffers::RegMatrix;

// Starts a check of a register against these segments. It tests 15, 8, 5, 6, 7 in this order, and gives the refusal or the position at the
// start. More than MAX segments are refused with 15, and whatever MAX is, more than the 512 that a job may have.
#[tactic(auto, unfolding(crate::specs::Answers::check_answer))]
pub fn check_interference<const MAX: usize>(
    segments: &[ValueSegment],
    query: InterferenceQuery<'_>,
    matrix: RegMatrix<'_>,
) -> Result<Cursor, Refusal>
    ensures { numbered result ≡ check_answer (ltb (min MAX max_segments) (length segments.now)) query.entry.regs.now query.entry.count query.entry.reg query.entry.full matrix.entry.table.ends.now matrix.entry.table.rests.now matrix.entry.uses.now (froms_of segments.now) (tos_of segments.now) (values_of segments.now) }
{
    if MAX.min(512) < segments.len() {
        return Err(Refusal::ShortBuffer);
    }
    check::check_interference(query, matrix, segments)
}

// The position at the lowest unit of a map: its first entry that ends past the first segment's start. It asks nothing of what is lent: without
// segments the start is 0.
pub fn enter(segments: &[ValueSegment], ends: &[u64], units: u64, full: bool) -> Cursor
    ensures { result ≡ entered ends.now (froms_of segments.now) units full }
{
    check::enter(ends, segments, units, full)
}

// As many of the segments as a job may have.
fn seen(segments: &[ValueSegment]) -> &[ValueSegment]
    ensures { result.now ≡ take max_segments segments.now }
{
    if is_long(segments) {
        &segments[..512]
    } else {
        segments
    }
}

// The next report from this position on, with the position after it, or the check's end. It asks nothing of what is lent: of more than 512
// segments, against which no check starts, it sees the first 512.
pub fn next(
    segments: &[ValueSegment],
    c: Cursor,
    matrix: RegMatrix<'_>,
) -> Option<(Interference, Cursor)>
    ensures { Answered (lent_to matrix.entry (take max_segments segments.now)) c result }
{
    c.next(matrix, seen(segments))
}
