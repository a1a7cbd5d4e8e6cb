// What a check's reports say of evicting a candidate's holders (`evict.rs`).
ghost use Rattle.std.specs.Prelude.{◌≡◌, false, replicate};
ghost use Rattle.job.specs.Model.{zero_weight};
ghost use Rattle.record_words.specs.Words.{held_in};
ghost use Rattle.stage.specs.Searching.{lent_for};
ghost use Rattle.stage.specs.EvictWalk.{can_win, zero_cost, tried, tried_below};
ghost use Rattle.stage.specs.AllocateWalk.{reports_on};

use crate::search::Search;
use allocator::EvictCost;
use evict_costs::{is_cheaper, may_evict, with_holder};
use lent::at;
use matrix::check::enter;
use record_words::held_at;
use reg_matrix::InterferenceKind;

// What a check's reports say of a candidate that no fixed report rules out: the cost with each holder counted once, the holders' weights added at
// every report, and who the holders are.
#[derive(Clone, Copy)]
pub struct Tried {
    pub cost: EvictCost,
    pub every_report: f32,
    pub holders: [bool; 512],
}

// What a search still wants of a candidate of this weight. By cost: that its holders may be evicted for a number with this flag and spill weight
// `own`, and cost less than the best so far. By weight: that their weights, added at every report, stay below its own.
#[derive(Clone, Copy)]
pub enum Limit {
    ByCost {
        weight: f32,
        flag: bool,
        own: f32,
        best: EvictCost,
    },
    ByWeight(f32),
}

// Whether a candidate may still win at this cost and with this sum at every report.
pub fn can_win(limit: Limit, cost: EvictCost, every_report: f32) -> bool
    ensures { result ≡ can_win limit cost every_report }
{
    match limit {
        Limit::ByCost {
            weight,
            flag,
            own,
            best,
        } => may_evict(weight, flag, cost.spill_weight, own) && is_cheaper(cost, best),
        Limit::ByWeight(weight) => every_report < weight,
    }
}

// Nothing reported yet.
fn nothing_tried() -> Tried
    ensures { result ≡ tried zero_cost zero_weight (replicate 512 false) }
{
    Tried {
        cost: EvictCost::default(),
        every_report: 0.0,
        holders: [false; 512],
    }
}

impl Limit {
    // What the check of the segments on a register's units says of evicting its holders: each holder once for the cost,
    // and at every report for the sum, in the order of the reports. A fixed report rules the candidate out, and so does one after which it can no
    // longer win; as weights never fall when they are added, the rest would not help it.
    pub fn try_reports(self, units: u64, search: &Search<'_>) -> Option<Tried>
        ensures { result ≡ tried_below self (held_in search.now.words.now) search.now.spills.now (reports_on (lent_for search.now) units) }
    {
        let matrix = search.matrix;
        let segments = search.segments;
        let mut t = nothing_tried();
        let mut c = enter(matrix.table.ends, segments, units, false);
        // a `for` is no plainer: an `Iterator` over the reports owes laws of its own (`can_next`, `next_gives`, `remaining`), where the
        // promise of `next` on one report and the position after it is enough
        while let Some((report, next)) = c.next(matrix, segments) {
            let InterferenceKind::VirtReg(v) = report.kind else {
                return None;
            };
            c = next;
            let i = v as usize;
            if i < 512 {
                let weight = held_at(search.words, i);
                t.cost = with_holder(t.cost, t.holders[i], weight, at(search.spills, i));
                t.every_report += weight;
                t.holders[i] = true;
                if !can_win(self, t.cost, t.every_report) {
                    return None;
                }
            }
        }
        Some(t)
    }
}
