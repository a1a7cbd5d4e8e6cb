// Direct placements and evictions over a header and records that stand in lent words.
ghost use Rattle.std.specs.Float.{binary32};
ghost use Rattle.std.specs.Float.Ieee.{of_bits};
ghost use Rattle.job.specs.Layout.{slices};
ghost use Rattle.run_loop.specs.Running.{lent_state};
ghost use Rattle.allocator.specs.Calls.{placing};
ghost use Rattle.calls.specs.Calling.{sizes_of};
ghost use Rattle.words.specs.Words.{words_short};
ghost use Rattle.pezhkadu.specs.Calling.{Called, EvictCalled};

use crate::number;
use job_parts::lent_job::LentJob;
use table_words::buffers::LentState;

// Places the virtual register v in the register, with the weight of these binary32 bits. The answer is 0, or the number of the refusal, and then
// nothing is changed: 15 where a slice is short, 8 where there is no such number or register or v may not have it, 9 where the weight is infinite, no
// number or has the sign, 13 where v is not unassigned, 14 where the check reports anything.
#[unsafe(no_mangle)]
pub extern "C" fn pezhkadu_assign(
    header: &[u64],
    records: &mut [u64],
    v: u64,
    reg: u64,
    weight: u64,
    j64: &[u64],
    j32: &[u32],
    j16: &[u16],
    j8: &[u8],
    jf: &[f32],
    ends: &mut [u64],
    rests: &mut [u64],
    queue: &mut [u64],
    last: &mut [u8],
) -> u64
    ensures { Called (words_short header.now records.old) header.now (slices j64.now j32.now j16.now j8.now jf.now) (placing (sizes_of (slices j64.now j32.now j16.now j8.now jf.now) (lent_state ends.old rests.old queue.old last.old)) v reg (of_bits binary32 weight)) (lent_state ends.old rests.old queue.old last.old) records.old (lent_state ends.new rests.new queue.new last.new) records.new result }
{
    let job = LentJob {
        j64,
        j32,
        j16,
        j8,
        jf,
    };
    let mut state = LentState { ends, rests, queue };
    number(pezhkadu::direct::pezhkadu_assign(
        header, records, v, reg, weight, job, &mut state, last,
    ))
}

// Evicts the virtual register v, and stores the register that it held in the answer's first word. The answer is 0, or the number of the refusal, and
// then nothing is changed: 15 where a slice is short, 8 where there is no such number, 13 where v holds no register.
#[unsafe(no_mangle)]
pub extern "C" fn pezhkadu_evict(
    header: &[u64],
    records: &mut [u64],
    v: u64,
    j64: &[u64],
    j32: &[u32],
    j16: &[u16],
    j8: &[u8],
    jf: &[f32],
    ends: &mut [u64],
    rests: &mut [u64],
    queue: &mut [u64],
    last: &[u8],
    answer: &mut [u64],
) -> u64
    ensures { EvictCalled header.now (slices j64.now j32.now j16.now j8.now jf.now) v (lent_state ends.old rests.old queue.old last.now) records.old answer.old (lent_state ends.new rests.new queue.new last.now) records.new answer.new result }
{
    let job = LentJob {
        j64,
        j32,
        j16,
        j8,
        jf,
    };
    let mut state = LentState { ends, rests, queue };
    number(pezhkadu::direct::pezhkadu_evict(header, records, v, job, &mut state, last, answer))
}
