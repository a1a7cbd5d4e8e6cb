// Loading a stage whose header and records stand in lent words.
ghost use Rattle.job.specs.Layout.{slices};
ghost use Rattle.run_loop.specs.Running.{lent_state};
ghost use Rattle.pezhkadu.specs.Loading.{LoadCalled};

use crate::number;
use job_parts::lent_job::LentJobMut;
use table_words::buffers::LentState;

// Loads the job of these bytes: its header and the records as they start out into words, the job, the table, the queue and the last registers into
// the other slices. The answer is 0, or the number of the refusal, and then nothing is changed: 15 where a slice is short, then the job's length (4),
// its fields in byte order, 2, 10, 11, 12.
#[unsafe(no_mangle)]
pub extern "C" fn pezhkadu_load(
    bytes: &[u8],
    header: &mut [u64],
    records: &mut [u64],
    j64: &mut [u64],
    j32: &mut [u32],
    j16: &mut [u16],
    j8: &mut [u8],
    jf: &mut [f32],
    ends: &mut [u64],
    rests: &mut [u64],
    queue: &mut [u64],
    last: &mut [u8],
) -> u64
    ensures { LoadCalled bytes.now header.old records.old (slices j64.old j32.old j16.old j8.old jf.old) (lent_state ends.old rests.old queue.old last.old) header.new records.new (slices j64.new j32.new j16.new j8.new jf.new) (lent_state ends.new rests.new queue.new last.new) result }
{
    let mut job = LentJobMut {
        j64,
        j32,
        j16,
        j8,
        jf,
    };
    let mut state = LentState { ends, rests, queue };
    number(pezhkadu::loading::pezhkadu_load(bytes, header, records, &mut job, &mut state, last))
}
