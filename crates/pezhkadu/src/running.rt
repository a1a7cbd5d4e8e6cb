// A run over records that stand in lent words, which it changes where they stand.
ghost use Rattle.reg_matrix.specs.Refused.{number_in};
ghost use Rattle.job_parts.specs.Lent.{slices_of};
ghost use Rattle.table_words.specs.Buffers.{SameState};
ghost use Rattle.run_loop.specs.Running.{state_in};
ghost use Rattle.pezhkadu.specs.Calling.{RunCalled};

use call_tests::short_buffers;
use job_parts::lent_job::LentJob;
use lent::put;
use record_words::renew;
use reg_matrix::Refusal;
use run_loop::{ending_number, run_on};
use table_words::buffers::LentState;

// Runs with a budget of so many dequeues. The answer takes the number of the run's word, 1 for done, 2 for spent and 3 for toomany, and how many
// dequeues it made. Refused with 15 where a slice is short, and then nothing is changed.
pub fn pezhkadu_run(
    records: &mut [u64],
    budget: u64,
    job: LentJob<'_>,
    state: &mut LentState<'_>,
    last: &mut [u8],
    answer: &mut [u64],
) -> Result<(), Refusal>
    ensures same { SameState state.old state.new }
    ensures called { RunCalled (slices_of job.entry) budget (state_in state.old last.old) records.old answer.old (state_in state.new last.new) records.new answer.new (number_in result) }
{
    if records.len() < 512 {
        return Err(Refusal::ShortBuffer);
    }
    if answer.len() < 2 {
        return Err(Refusal::ShortBuffer);
    }
    let lent = &*state;
    if short_buffers(job, lent.as_table(), lent.queue, last) {
        return Err(Refusal::ShortBuffer);
    }
    renew(records);
    let all = &mut records[..512];
    let end = run_on(budget, job, state, last, all);
    put(answer, 0, ending_number(end.ending));
    put(answer, 1, end.dequeues);
    Ok(())
}
