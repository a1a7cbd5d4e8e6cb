// The check of lists of segment structs: of the first n of a list, which are at most 255, as many as a script's check has.
#![tactic(auto)]

ghost use Rattle.std.specs.Prelude.{◌≡◌, ◌<◌, ◌≤◌, ltb, take};
ghost use Rattle.matrix.specs.Walk.{Answered};
ghost use Rattle.reg_matrix.specs.Refused.{numbered};
ghost use Rattle.table_words.specs.Segments.{froms_of, tos_of, values_of};
ghost use Rattle.thin.specs.Answers.{lent_to, check_answer};

use matrix::Cursor;
use matrix::check::InterferenceQuery;
use reg_matrix::{Interference, Refusal, ValueSegment};
use table_words::buffers::RegMatrix;
use thin::check::{check_interference, next};

// The first n of a list, or all of a list that has fewer.
fn first(list: &[ValueSegment], n: usize) -> &[ValueSegment]
    ensures { result.now ≡ take n list.now }
{
    list.get(..n).unwrap_or(list)
}

// Starts a check of a register against the first n segments of a list. It tests 15, 8, 5, 6, 7 in this order, and gives the refusal or the
// position at the start. More than 255 segments are refused with 15.
#[tactic(auto, unfolding(thin::specs::Answers::check_answer))]
pub fn check_list(
    list: &[ValueSegment],
    n: usize,
    query: InterferenceQuery<'_>,
    matrix: RegMatrix<'_>,
) -> Result<Cursor, Refusal>
    ensures { numbered result ≡ check_answer (ltb 255 n) query.entry.regs.now query.entry.count query.entry.reg query.entry.full matrix.entry.table.ends.now matrix.entry.table.rests.now matrix.entry.uses.now (froms_of (take n list.now)) (tos_of (take n list.now)) (values_of (take n list.now)) }
{
    if 255 < n {
        return Err(Refusal::ShortBuffer);
    }
    check_interference::<255>(first(list, n), query, matrix)
}

// The next report on the first n segments from this position on, with the position after it, or the check's end. It asks nothing of what is lent:
// of more than 255 segments, against which no check starts, there is none, and the answer is the end. (`thin::check::next` sees the first 512
// there, so neither promises what the other does, and both stay.)
pub fn next_in_list(
    list: &[ValueSegment],
    n: usize,
    c: Cursor,
    matrix: RegMatrix<'_>,
) -> Option<(Interference, Cursor)>
    ensures { (255 < n → result ≡ None) × (n ≤ 255 → Answered (lent_to matrix.entry (take n list.now)) c result) }
{
    if 255 < n {
        return None;
    }
    next(first(list, n), c, matrix)
}
