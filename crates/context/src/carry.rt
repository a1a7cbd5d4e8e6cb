// Carrying out what a dequeue decided (`Context::allocate`, `assign`, `evict`): the table, the queue, the last registers and the records.
ghost use Rattle.std.specs.Prelude.{◌≡◌};
ghost use Rattle.table_words.specs.Buffers.{SameState};
ghost use Rattle.job.specs.Layout.{lists_in};
ghost use Rattle.job_parts.specs.Lent.{slices_of};
ghost use Rattle.context.specs.Carrying.{EvictedAll, given_record, Settled, CarriedOut};

use allocator::{Assignment, CandidateReg};
use decisions::Decided;
use job_parts::lent_job::LentJob;
use lent::{at, put};
use moves::{pass_by, take, take_back};
use record_words::{record_of, word_of};
use records::assignment::flag_of;
use records::changes::waiting;
use table_words::buffers::LentState;

// All of a set lose their registers, in ascending order, and their records say so.
fn evict_all(gone: &[bool; 512], job: LentJob<'_>, state: &mut LentState<'_>, words: &mut [u64])
    ensures same { SameState state.old state.new }
    ensures after { EvictedAll gone.now (lists_in (slices_of job.entry)) state.old words.old state.new words.new }
{
    for (v, is_gone) in gone.iter().enumerate() {
        if *is_gone {
            let a = record_of(at(words, v));
            if let Assignment::Assigned { reg, .. } = a {
                put(words, v, word_of(waiting(a)));
                take_back(v as u16, reg, job, state);
            }
        }
    }
}

// The record of a number that takes a register: its flag stays on, or turns on.
fn given(flag: bool, before: Assignment, to: CandidateReg) -> Assignment
    ensures { result ≡ given_record flag before to }
{
    Assignment::Assigned {
        evicted_for_preference: flag || flag_of(before),
        reg: to.reg,
        preference_weight: to.preference_weight,
    }
}

// The number takes the register that was decided, and its record says so. Its flag turns on, or stays as it was.
fn settle(
    v: u16,
    to: CandidateReg,
    flag: bool,
    job: LentJob<'_>,
    state: &mut LentState<'_>,
    last: &mut [u8],
    words: &mut [u64],
)
    ensures same { SameState state.old state.new }
    ensures after { Settled v to flag (lists_in (slices_of job.entry)) state.old last.old words.old state.new last.new words.new }
{
    let i = v as usize;
    let before = record_of(at(words, i));
    put(words, i, word_of(given(flag, before, to)));
    take(v, to.reg, job, state, last);
}

// What the dequeue of v decided is carried out, where the records stand in the words.
pub fn carry_out(
    decided: &Decided,
    v: u16,
    job: LentJob<'_>,
    state: &mut LentState<'_>,
    last: &mut [u8],
    words: &mut [u64],
)
    ensures same { SameState state.old state.new }
    ensures after { CarriedOut decided.now v (lists_in (slices_of job.entry)) state.old last.old words.old state.new last.new words.new }
{
    match decided {
        Decided::Takes(to) => settle(v, *to, false, job, state, last, words),
        Decided::Evicts { to, flag, holders } => {
            evict_all(holders, job, state, words);
            settle(v, *to, *flag, job, state, last, words);
        }
        _ => pass_by(decided, v, job, state.queue, words),
    }
}
