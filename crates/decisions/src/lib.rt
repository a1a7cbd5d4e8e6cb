// What a dequeue decides (`Context::allocate`). It reads, and changes nothing.
#![tactic(auto)]

ghost use Rattle.std.specs.Prelude.{◌≡◌, not, ◌&&◌, get_or};
ghost use Rattle.std.specs.Float.Ieee.{lt};
ghost use Rattle.job.specs.Layout.{lists_in};
ghost use Rattle.allocator.specs.Order.{highest_preference};
ghost use Rattle.records.specs.Fields.{flag_in};
ghost use Rattle.record_words.specs.Words.{record_in, held_in};
ghost use Rattle.order.specs.Hinted.{hinted_by};
ghost use Rattle.stage.specs.Searching.{lent_for};
ghost use Rattle.job_parts.specs.Shares.{share_of};
ghost use Rattle.job_parts.specs.Lent.{slices_of};
ghost use Rattle.decisions.specs.Deciding.{Evicts, last_in, lent_to, hinted_in, decided_in};
ghost use Rattle.decisions.specs.Dequeues.{clear_for, none_clear_for, decided_for};

use allocator::{CandidateReg, Stage};
use job::{HINT_REGS, HINT_STARTS, HINT_WEIGHTS, SETS, USES};
use job_parts::lent_job::LentJob;
use job_parts::{class_of, part_of, segments_of};
use lent::{at, from};
use order::Hints;
use order::allocation_order::AllocationOrder;
use order::hinted::HintedRegs;
use record_words::record_of;
use records::assignment::flag_of;
use stage::allocate::{
    Available, Best, find_available_reg, try_evict, try_evict_for_preferred_reg,
};
use stage::search::Search;
use table_words::buffers::{RegMatrix, Table};

// What a dequeue decides of a number: it is left over; it takes a register that is clear; it takes one after evicting its holders, and its flag turns
// on or stays; it goes back to the queue at stage Split; or the run ends, as too many are live.
#[derive(Clone, Copy)]
pub enum Decided {
    Leaves,
    Takes(CandidateReg),
    Evicts {
        to: CandidateReg,
        flag: bool,
        holders: [bool; 512],
    },
    Splits,
    Fails,
}

// The register last given to the set of v. In its byte it stands plus one, and 0 stands for none: C lends these bytes.
#[tactic(auto, unfolding(crate::specs::Deciding::last_in))]
fn last_given(last: &[u8], sets: &[u16], v: u16) -> Option<u8>
    ensures { result ≡ last_in last.now sets.now v }
{
    let word = at(last, at(sets, v as usize) as usize);
    if word == 0 { None } else { Some(word - 1) }
}

// The best candidate is taken from its holders, and the flag turns on or not.
fn evicts(best: Best, flag: bool) -> Decided
    ensures { result ≡ Evicts best.to flag best.holders }
{
    let Best { to, holders, .. } = best;
    Decided::Evicts { to, flag, holders }
}

// The hints of v.
fn hints_of<'a>(v: u16, job: LentJob<'a>) -> Hints<'a>
    ensures { (result.regs.now ≡ share_of (lists_in (slices_of job.entry)).hint_starts v (lists_in (slices_of job.entry)).hint_regs) × (result.weights.now ≡ share_of (lists_in (slices_of job.entry)).hint_starts v (lists_in (slices_of job.entry)).hint_weights) }
{
    let starts = from(job.j16, HINT_STARTS);
    Hints {
        regs: part_of(starts, v, from(job.j8, HINT_REGS)),
        weights: part_of(starts, v, from(job.jf, HINT_WEIGHTS)),
    }
}

// What the searches for v read.
fn search_of<'a>(v: u16, words: &'a [u64], job: LentJob<'a>, table: Table<'a>) -> Search<'a>
    ensures lent { lent_for result ≡ lent_to (lists_in (slices_of job.entry)) table.entry.ends.now table.entry.rests.now v }
    ensures lists { (result.maps.now ≡ job.entry.j64.now) × (result.words.now ≡ words.now) × (result.spills.now ≡ job.entry.jf.now) }
{
    Search {
        maps: job.j64,
        matrix: RegMatrix {
            table,
            uses: from(job.j64, USES),
        },
        segments: segments_of(v, job),
        words,
        spills: job.jf,
    }
}

// A number that is dequeued: the stage that it was queued at, its flag, its spill weight, the order of its candidates, and what the searches read.
#[derive(Clone, Copy)]
struct Dequeued<'a> {
    stage: Stage,
    flag: bool,
    spill_weight: f32,
    order: &'a AllocationOrder<'a>,
    search: Search<'a>,
}

impl Dequeued<'_> {
    // Whether a preferred candidate is looked for: the clear one is lighter than the first hinted one, and the flag is off.
    fn wants_preferred(&self, c: CandidateReg) -> bool
        ensures { result ≡ (lt c.preference_weight (highest_preference (hinted_by self.now.order.now)) && not self.now.flag) }
    {
        !self.flag && c.preference_weight < self.order.highest_preference()
    }

    // The clear candidate c is taken, unless another is preferred and its holders may be evicted.
    fn with_clear(&self, c: CandidateReg) -> Decided
        ensures { result ≡ clear_for self.now c }
    {
        if !self.wants_preferred(c) {
            return Decided::Takes(c);
        }
        match try_evict_for_preferred_reg(c, self.order.hinted, &self.search) {
            Some(best) => evicts(best, true),
            None => Decided::Takes(c),
        }
    }

    // No candidate is clear: at stage Evict the least cost decides, or whether the spill weight is infinite; at stage Split the number is left over.
    fn with_none_clear(&self) -> Decided
        ensures { result ≡ none_clear_for self.now }
    {
        let Stage::Evict = self.stage else {
            return Decided::Leaves;
        };
        match try_evict(self.order, self.flag, self.spill_weight, &self.search) {
            Some(best) => evicts(best, !(best.cost.spill_weight < self.spill_weight)),
            None if self.spill_weight == f32::INFINITY => Decided::Fails,
            None => Decided::Splits,
        }
    }

    // The decision by the candidates of the order.
    fn in_order(&self) -> Decided
        ensures { result ≡ decided_for self.now }
    {
        match find_available_reg(self.order, &self.search) {
            Available::NoCandidates => Decided::Leaves,
            Available::Clear(c) => self.with_clear(c),
            Available::NoneClear => self.with_none_clear(),
        }
    }
}

// What the dequeue of v from a stage decides, where the records stand in the words.
pub fn decide(
    v: u16,
    stage: Stage,
    words: &[u64],
    job: LentJob<'_>,
    table: Table<'_>,
    last: &[u8],
) -> Decided
    ensures { result ≡ decided_in (lists_in (slices_of job.entry)) table.entry.ends.now table.entry.rests.now last.now (held_in words.now) (flag_in (record_in (get_or words.now v 0))) v stage }
{
    let i = v as usize;
    let last_reg = last_given(last, from(job.j16, SETS), v);
    let hinted = HintedRegs::new(hints_of(v, job), last_reg);
    let order = AllocationOrder::new(class_of(v, job), &hinted);
    let d = Dequeued {
        stage,
        flag: flag_of(record_of(at(words, i))),
        spill_weight: at(job.jf, i),
        order: &order,
        search: search_of(v, words, job, table),
    };
    d.in_order()
}
