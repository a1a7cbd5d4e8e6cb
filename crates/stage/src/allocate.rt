// The searches of a dequeue (`Context::allocate`): for a clear register (`find_available_reg`), and for one to evict from. An order is walked by its
// places (`AllocationOrder::candidate`).
ghost use Rattle.std.specs.Prelude.{◌≡◌, None, false};
ghost use Rattle.reg_matrix.specs.Lists.{is_nil};
ghost use Rattle.matrix.specs.Walk.{lent_in};
ghost use Rattle.order.specs.Hinted.{offers};
ghost use Rattle.record_words.specs.Words.{held_in};
ghost use Rattle.stage.specs.Searching.{lent_for};
ghost use Rattle.stage.specs.AllocateWalk.{reports_on, none_of, available_in, cost_so_far, taking, by_cost, evict_in, prefers, prefer_in};

use crate::evict::{Limit, Tried, can_win};
use crate::search::Search;
use allocator::{CandidateReg, EvictCost};
use lent::at;
use matrix::check::enter;
use order::allocation_order::AllocationOrder;
use table_words::buffers::RegMatrix;
use table_words::segments::Segments;

// The first candidate that is clear; or none is; or there are no candidates. Three cases, each decided on, so no Option.
#[derive(Clone, Copy, PartialEq, Debug)]
pub enum Available {
    Clear(CandidateReg),
    NoneClear,
    NoCandidates,
}

// The best candidate to evict from so far, at what cost, and whom.
#[derive(Clone, Copy)]
pub struct Best {
    pub to: CandidateReg,
    pub cost: EvictCost,
    pub holders: [bool; 512],
}

// Whether the check of the segments on a register's units reports nothing. It stops at the first report.
pub fn is_clear(units: u64, matrix: RegMatrix<'_>, segments: Segments<'_>) -> bool
    ensures { result ≡ is_nil (reports_on (lent_in matrix.entry segments.entry.froms.now segments.entry.tos.now segments.entry.values.now) units) }
{
    let c = enter(matrix.table.ends, segments, units, false);
    c.next(matrix, segments).is_none()
}

fn none_of(tried: bool) -> Available
    ensures { result ≡ none_of tried }
{
    if tried {
        Available::NoneClear
    } else {
        Available::NoCandidates
    }
}

// The first candidate of the order that is clear.
pub fn find_available_reg(order: &AllocationOrder<'_>, search: &Search<'_>) -> Available
    ensures { result ≡ available_in (lent_for search.now) search.now.maps.now false (offers order.now) }
{
    let mut tried = false;
    for place in 0..order.len() {
        let Some(c) = order.candidate(place) else {
            continue;
        };
        tried = true;
        let units = at(search.maps, c.reg as usize);
        if is_clear(units, search.matrix, search.segments) {
            return Available::Clear(c);
        }
    }
    none_of(tried)
}

// What the best candidate so far costs: where there is none, more than any does.
fn cost_so_far(best: &Option<Best>) -> EvictCost
    ensures { result ≡ cost_so_far best.now }
{
    match best {
        Some(b) => b.cost,
        None => EvictCost {
            preference_weight: f32::INFINITY,
            spill_weight: f32::INFINITY,
        },
    }
}

// What the search for a register to evict from wants of a candidate.
fn by_cost(flag: bool, own: f32, c: CandidateReg, best: EvictCost) -> Limit
    ensures { result ≡ by_cost flag own c best }
{
    Limit::ByCost {
        weight: c.preference_weight,
        flag,
        own,
        best,
    }
}

// The candidate as the best one, at what it was found to cost and with its holders.
fn found(c: CandidateReg, t: Tried) -> Best
    ensures { result ≡ taking c t }
{
    let Tried { cost, holders, .. } = t;
    Best {
        to: c,
        cost,
        holders,
    }
}

// The search for a register to evict from, for a number with this flag and spill weight: the least cost wins, the first on ties.
pub fn try_evict(
    order: &AllocationOrder<'_>,
    flag: bool,
    own: f32,
    search: &Search<'_>,
) -> Option<Best>
    ensures { result ≡ evict_in (lent_for search.now) search.now.maps.now (held_in search.now.words.now) search.now.spills.now flag own None (offers order.now) }
{
    let mut best = None;
    for place in 0..order.len() {
        let Some(c) = order.candidate(place) else {
            continue;
        };
        let units = at(search.maps, c.reg as usize);
        let limit = by_cost(flag, own, c, cost_so_far(&best));
        let Some(t) = limit.try_reports(units, search) else {
            continue;
        };
        if can_win(limit, t.cost, t.every_report) {
            best = Some(found(c, t));
        }
    }
    best
}

// Whether a candidate is heavier than the clear one, and than its holders at every report together.
fn is_preferred(clear: CandidateReg, c: CandidateReg, t: &Tried) -> bool
    ensures { result ≡ prefers clear c t.now }
{
    clear.preference_weight < c.preference_weight && t.every_report < c.preference_weight
}

// The first hinted candidate that is preferred to the clear one, with its holders.
pub fn try_evict_for_preferred_reg(
    clear: CandidateReg,
    hinted: &[CandidateReg],
    search: &Search<'_>,
) -> Option<Best>
    ensures { result ≡ prefer_in (lent_for search.now) search.now.maps.now (held_in search.now.words.now) search.now.spills.now clear hinted.now }
{
    for c in hinted {
        let units = at(search.maps, c.reg as usize);
        let limit = Limit::ByWeight(c.preference_weight);
        let Some(t) = limit.try_reports(units, search) else {
            continue;
        };
        if is_preferred(clear, *c, &t) {
            return Some(found(*c, t));
        }
    }
    None
}
