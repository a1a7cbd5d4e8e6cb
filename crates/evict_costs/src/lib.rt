// Costs of an eviction (`evict.rs`): two weights held together and replaced together.
#![tactic(auto)]

ghost use Rattle.std.specs.Prelude.{◌≡◌};
ghost use Rattle.allocator.specs.Evict.{max_weight, cheaper};
ghost use Rattle.evict_costs.specs.Costs.{add_holder, with_holder, may_evict};

use allocator::EvictCost;

// The heavier of two weights. `a.max(b)` is another function: it gives the other where one is no number, and of 0 and -0 either.
fn heavier(a: f32, b: f32) -> f32
    ensures { result ≡ max_weight a b }
{
    if a < b { b } else { a }
}

// The cost with one holder more.
fn add_holder(cost: EvictCost, held: f32, spill: f32) -> EvictCost
    ensures { result ≡ add_holder cost held spill }
{
    EvictCost {
        preference_weight: cost.preference_weight + held,
        spill_weight: heavier(cost.spill_weight, spill),
    }
}

// The cost with a holder more, if it was not seen before.
pub fn with_holder(cost: EvictCost, seen: bool, held: f32, spill: f32) -> EvictCost
    ensures { result ≡ with_holder cost seen held spill }
{
    if seen {
        return cost;
    }
    add_holder(cost, held, spill)
}

// Whether the first cost is less: the preference sum first, then the spill maximum.
pub fn is_cheaper(a: EvictCost, b: EvictCost) -> bool
    ensures { result ≡ cheaper a b }
{
    a < b
}

// Whether a candidate of this weight may evict holders of this spill weight for a number with this flag and spill weight. A struct of these last two
// would be no plainer: they are the dequeued number's, and what decides (decisions) also reads each alone, the flag for a preferred candidate and the
// weight for an infinite one; a search puts both into its limit, beside what it wants of the candidate.
pub fn may_evict(weight: f32, flag: bool, spill: f32, own: f32) -> bool
    ensures { result ≡ may_evict weight flag spill own }
{
    spill < own || (!flag && weight != 0.0)
}
