// Loading a stage whose header and records stand in lent words.
ghost use Rattle.reg_matrix.specs.Refused.{number_in};
ghost use Rattle.job_parts.specs.Lent.{SameJob, slices_in};
ghost use Rattle.table_words.specs.Buffers.{SameState};
ghost use Rattle.run_loop.specs.Running.{state_in};
ghost use Rattle.pezhkadu.specs.Loading.{LoadCalled};

use job_parts::lent_job::LentJobMut;
use reg_matrix::Refusal;
use stage_loader::{load, store_first_records};
use table_words::buffers::LentState;
use words::header::{LentWords, short_words, store_header};

// Loads the job of these bytes: its header and the records as they start out into words, the job, the table, the queue and the last registers into
// the other slices. A refusal changes nothing: 15 where a slice is short, then the job's length (4), its fields in byte order, 2, 10, 11, 12.
pub fn pezhkadu_load(
    bytes: &[u8],
    header: &mut [u64],
    records: &mut [u64],
    job: &mut LentJobMut<'_>,
    state: &mut LentState<'_>,
    last: &mut [u8],
) -> Result<(), Refusal>
    ensures same { SameJob job.old job.new × SameState state.old state.new }
    ensures called { LoadCalled bytes.now header.old records.old (slices_in job.old) (state_in state.old last.old) header.new records.new (slices_in job.new) (state_in state.new last.new) (number_in result) }
{
    if short_words(LentWords { header, records }) {
        return Err(Refusal::ShortBuffer);
    }
    let found = load(bytes, job, state, last)?;
    store_header(found, header);
    store_first_records(records);
    Ok(())
}
