// What a record says, whichever of its three cases it is, and a record by its three parts: what it is, as a number; its register; its weight.
ghost use Rattle.std.specs.Prelude.{◌≡◌, true, false};
ghost use Rattle.std.specs.Option.{MatchOption};
ghost use Rattle.job.specs.Model.{zero_weight};
ghost use Rattle.records.specs.Fields.{flag_in, is_held, reg_in, record_weight, kind_of, record_by, weight_in};

use allocator::{Assignment, CandidateReg};

// Whether a record has its evicted-for-preference flag on.
pub fn flag_of(a: Assignment) -> bool
    ensures { result ≡ flag_in a }
{
    match a {
        Assignment::Assigned {
            evicted_for_preference,
            ..
        } => evicted_for_preference,
        Assignment::Unassigned {
            evicted_for_preference,
        } => evicted_for_preference,
        Assignment::Dead => false,
    }
}

// The register that a record holds, with the weight with which it does.
pub fn held(a: Assignment) -> Option<CandidateReg>
    ensures { MatchOption result ((is_held a ≡ false) × (reg_in a ≡ 0) × (record_weight a ≡ zero_weight)) (λ c. (is_held a ≡ true) × (reg_in a ≡ c.reg) × (record_weight a ≡ c.preference_weight)) }
{
    match a {
        Assignment::Assigned {
            reg,
            preference_weight,
            ..
        } => Some(CandidateReg {
            reg,
            preference_weight,
        }),
        _ => None,
    }
}

// What a record is, as a number: 0 or 1 for an unassigned one, 4 or 5 for an assigned one, the second of each where the flag is on; 2 for a dead one.
// These numbers are the low byte of a record's word, in which callers of the C interface lend the records.
pub fn kind_of(a: Assignment) -> u8
    ensures { result ≡ kind_of a }
{
    let flag = u8::from(flag_of(a));
    match a {
        Assignment::Assigned { .. } => 4 + flag,
        Assignment::Unassigned { .. } => flag,
        Assignment::Dead => 2,
    }
}

// The record of this kind, a number of the C interface, with this register and weight where it is assigned.
pub fn record_by(kind: u8, reg: u8, weight: f32) -> Assignment
    ensures { result ≡ record_by kind reg weight }
{
    match kind {
        0 | 1 => Assignment::Unassigned {
            evicted_for_preference: kind == 1,
        },
        4 | 5 => Assignment::Assigned {
            evicted_for_preference: kind == 5,
            reg,
            preference_weight: weight,
        },
        _ => Assignment::Dead,
    }
}

// The weight of these bits, or 0 where they are no number or carry the sign.
#[tactic(auto, using(job::proofs::WeightBits::not_nan))]
pub fn weight_in(bits: u32) -> f32
    ensures { result ≡ weight_in bits }
{
    if bits <= 0x7F80_0000 {
        f32::from_bits(bits)
    } else {
        0.0
    }
}
