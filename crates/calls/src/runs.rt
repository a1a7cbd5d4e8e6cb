// A run as a call of its own: `Allocator::run` (`allocator/mod.rs`), with a budget.
ghost use Rattle.table_words.specs.Buffers.{SameState};
ghost use Rattle.job_parts.specs.Lent.{slices_of};
ghost use Rattle.run_loop.specs.Running.{state_in};
ghost use Rattle.reg_matrix.specs.Refused.{number_in};
ghost use Rattle.calls.specs.Calling.{afterwards, first_in, ending_in, dequeues_in, RunCalled};

use allocator::Assignment;
use call_tests::short_buffers;
use job_parts::lent_job::LentJob;
use record_words::{read, store};
use reg_matrix::Refusal;
use run_loop::{RunEnd, run_on};
use table_words::buffers::LentState;

// Runs with a budget: the records afterwards, with how the run ended and after how many dequeues. Refused with 15 where a buffer is short, and then
// nothing is changed. In between the records stand in words, which are lent where the records would be copied.
pub fn run(
    records: [Assignment; 512],
    budget: u64,
    job: LentJob<'_>,
    state: &mut LentState<'_>,
    last: &mut [u8],
) -> Result<([Assignment; 512], RunEnd), Refusal>
    ensures same { SameState state.old state.new }
    ensures called { RunCalled (slices_of job.entry) budget (state_in state.old last.old) records (state_in state.new last.new) (afterwards records (first_in result)) (number_in result) (ending_in result) (dequeues_in result) }
{
    let lent = &*state;
    if short_buffers(job, lent.as_table(), lent.queue, last) {
        return Err(Refusal::ShortBuffer);
    }
    let mut words = [0u64; 512];
    store(records, &mut words);
    let all: &mut [u64] = &mut words;
    let end = run_on(budget, job, state, last, all);
    Ok((read(&words), end))
}
