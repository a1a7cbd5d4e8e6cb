// The tests of a question's buffers and ranges (specs/Refusals.antt). Segments go by number, as `SegmentList` says.
ghost use Rattle.std.specs.Prelude.{◌≡◌, [], ◌∷◌, length};
ghost use Rattle.reg_matrix.specs.Refusals.{range_refusal, ranges_refusal, short_buffer, bad_slot};
ghost use Rattle.reg_matrix.specs.Refused.{refusal_in};
ghost use Rattle.reg_matrix.specs.Questions.{check_limits};
ghost use Rattle.table_words.specs.Segments.{segments_in, start_refusal};

use crate::buffers::RegMatrix;
use crate::segments::SegmentList;
use reg_matrix::Refusal;

// Whether a buffer lent to a check is shorter than its limit: the segments have as many ends and values as starts.
#[tactic(auto, unfolding(reg_matrix::specs::Refusals::short_buffer))]
pub fn short_buffers<S: SegmentList>(regs: &[u64], matrix: RegMatrix<'_>, segments: S) -> bool
    ensures { result ≡ short_buffer (check_limits (length (S.froms segments))) (length regs.now ∷ length matrix.entry.uses.now ∷ length matrix.entry.table.ends.now ∷ length matrix.entry.table.rests.now ∷ length (S.froms segments) ∷ length (S.tos segments) ∷ length (S.values segments) ∷ []) }
{
    regs.len() < 64 || matrix.is_short() || segments.is_short()
}

// The same of the seven sizes alone, for a caller that has no slices of these sizes.
#[tactic(auto, unfolding(reg_matrix::specs::Refusals::short_buffer))]
pub fn sizes_short(
    regs: usize,
    uses: usize,
    ends: usize,
    rests: usize,
    froms: usize,
    tos: usize,
    values: usize,
) -> bool
    ensures { result ≡ short_buffer (check_limits froms) (regs ∷ uses ∷ ends ∷ rests ∷ froms ∷ tos ∷ values ∷ []) }
{
    regs < 64 || uses < 512 || ends < 2560 || rests < 2560 || tos < froms || values < froms
}

fn bad_slot(point: u32) -> bool
    ensures { result ≡ bad_slot point }
{
    point % 4 == 3
}

// 5, 6 or 7 of a range that may not start before `past`, in this order.
#[tactic(auto, unfolding(reg_matrix::specs::Refusals::range_refusal, reg_matrix::specs::Refusals::refusal))]
pub fn range_refusal(past: u32, from: u32, to: u32) -> Result<(), Refusal>
    ensures { refusal_in result ≡ range_refusal past (record { from = from; to = to; value = 0 }) }
{
    if to <= from {
        return Err(Refusal::Empty);
    }
    if bad_slot(from) || bad_slot(to) {
        return Err(Refusal::BadPoint);
    }
    if from < past {
        return Err(Refusal::Unsorted);
    }
    Ok(())
}

// The same of segments one after another: the first refusal.
fn ranges_refusal<S: SegmentList>(segments: S) -> Result<(), Refusal>
    ensures { refusal_in result ≡ ranges_refusal 0 (segments_in (S.froms segments) (S.tos segments) []) }
{
    let mut past = 0;
    for i in 0..segments.count() {
        let s = segments.segment(i);
        range_refusal(past, s.from, s.to)?;
        past = s.to;
    }
    Ok(())
}

// 15, 8, 5, 6 or 7 of a check, in this order: whether a buffer is short, how many maps of units are lent and how many of these count, the
// register's number, and the segments.
#[tactic(auto, unfolding(crate::specs::Segments::start_refusal))]
pub fn start_refusal<S: SegmentList>(
    short: bool,
    regs: usize,
    count: usize,
    reg: usize,
    segments: S,
) -> Result<(), Refusal>
    ensures { refusal_in result ≡ start_refusal short regs count reg (S.froms segments) (S.tos segments) }
{
    if short {
        return Err(Refusal::ShortBuffer);
    }
    if regs <= reg || count <= reg {
        return Err(Refusal::UnknownNumber);
    }
    if segments.count() == 0 {
        return Err(Refusal::Empty);
    }
    ranges_refusal(segments)
}
