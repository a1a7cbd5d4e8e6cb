// Direct placements and evictions over a header and records that stand in lent words.
ghost use Rattle.std.specs.Float.{binary32};
ghost use Rattle.std.specs.Float.Ieee.{of_bits};
ghost use Rattle.reg_matrix.specs.Refused.{number_in};
ghost use Rattle.job_parts.specs.Lent.{slices_of};
ghost use Rattle.table_words.specs.Buffers.{SameState};
ghost use Rattle.run_loop.specs.Running.{state_in};
ghost use Rattle.allocator.specs.Calls.{placing};
ghost use Rattle.calls.specs.Calling.{sizes_of};
ghost use Rattle.words.specs.Words.{words_short};
ghost use Rattle.pezhkadu.specs.Calling.{Called, EvictCalled};

use call_tests::Placement;
use calls::direct::{Eviction, place};
use job_parts::lent_job::{LentJob, LoadedJob};
use lent::put;
use narrow::Narrow;
use record_words::{put_record, record_at};
use reg_matrix::Refusal;
use table_words::buffers::LentState;
use words::header::{LentWords, header_of, short_words};

// Places the virtual register v in the register, with the weight of these binary32 bits. A refusal changes nothing: 15 where a slice is short, 8
// where there is no such number or register or v may not have it, 9 where the weight is infinite, no number or has the sign, 13 where v is not
// unassigned, 14 where the check reports anything.
pub fn pezhkadu_assign(
    header: &[u64],
    records: &mut [u64],
    v: u64,
    reg: u64,
    weight: u64,
    job: LentJob<'_>,
    state: &mut LentState<'_>,
    last: &mut [u8],
) -> Result<(), Refusal>
    ensures same { SameState state.old state.new }
    ensures called { Called (words_short header.now records.old) header.now (slices_of job.entry) (placing (sizes_of (slices_of job.entry) (state_in state.old last.old)) v reg (of_bits binary32 weight)) (state_in state.old last.old) records.old (state_in state.new last.new) records.new (number_in result) }
{
    if short_words(LentWords { header, records }) {
        return Err(Refusal::ShortBuffer);
    }
    let v = u16::cut(v);
    let reg = u8::cut(reg);
    let weight = u32::cut(weight);
    let asked = Placement { v, reg, weight };
    let loaded = LoadedJob {
        header: header_of(header),
        job,
    };
    let a = record_at(records, v);
    let after = place(asked, a, loaded, state, last)?;
    put_record(records, v, after);
    Ok(())
}

// Evicts the virtual register v, and stores the register that it held in the answer's first word. A refusal changes nothing: 15 where a slice is
// short, 8 where there is no such number, 13 where v holds no register.
pub fn pezhkadu_evict(
    header: &[u64],
    records: &mut [u64],
    v: u64,
    job: LentJob<'_>,
    state: &mut LentState<'_>,
    last: &[u8],
    answer: &mut [u64],
) -> Result<(), Refusal>
    ensures same { SameState state.old state.new }
    ensures called { EvictCalled header.now (slices_of job.entry) v (state_in state.old last.now) records.old answer.old (state_in state.new last.now) records.new answer.new (number_in result) }
{
    if short_words(LentWords { header, records }) {
        return Err(Refusal::ShortBuffer);
    }
    if answer.is_empty() {
        return Err(Refusal::ShortBuffer);
    }
    let v = u16::cut(v);
    let asked = Eviction { v };
    let loaded = LoadedJob {
        header: header_of(header),
        job,
    };
    let a = record_at(records, v);
    let (after, reg) = asked.evict(a, loaded, state, last)?;
    put_record(records, v, after);
    put(answer, 0, reg as u64);
    Ok(())
}
