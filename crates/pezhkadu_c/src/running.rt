// A run over records that stand in lent words, which it changes where they stand.
ghost use Rattle.job.specs.Layout.{slices};
ghost use Rattle.run_loop.specs.Running.{lent_state};
ghost use Rattle.pezhkadu.specs.Calling.{RunCalled};

use crate::number;
use job_parts::lent_job::LentJob;
use table_words::buffers::LentState;

// Runs with a budget of so many dequeues. The answer takes the number of the run's word, 1 for done, 2 for spent and 3 for toomany, and how many
// dequeues it made. Refused with 15 where a slice is short, and then nothing is changed.
#[unsafe(no_mangle)]
pub extern "C" fn pezhkadu_run(
    records: &mut [u64],
    budget: u64,
    j64: &[u64],
    j32: &[u32],
    j16: &[u16],
    j8: &[u8],
    jf: &[f32],
    ends: &mut [u64],
    rests: &mut [u64],
    queue: &mut [u64],
    last: &mut [u8],
    answer: &mut [u64],
) -> u64
    ensures { RunCalled (slices j64.now j32.now j16.now j8.now jf.now) budget (lent_state ends.old rests.old queue.old last.old) records.old answer.old (lent_state ends.new rests.new queue.new last.new) records.new answer.new result }
{
    let job = LentJob {
        j64,
        j32,
        j16,
        j8,
        jf,
    };
    let mut state = LentState { ends, rests, queue };
    number(pezhkadu::running::pezhkadu_run(records, budget, job, &mut state, last, answer))
}
