// From a job's bytes to the position before the first line of its sheet (01, "The printed sheet").
#![tactic(auto)]

ghost use Rattle.reg_matrix.specs.Refused.{numbered};
ghost use Rattle.table_words.specs.Buffers.{SameState};
ghost use Rattle.job_parts.specs.Lent.{slices_in, SameJob};
ghost use Rattle.run_loop.specs.Running.{state_in};
ghost use Rattle.sheets.specs.Printing.{Begun};

use job_parts::lent_job::{LentJobMut, LoadedJob};
use listing::Listing;
use reg_matrix::Refusal;
use sheets::sheet::run_loaded;
use stage_loader::load;
use table_words::buffers::LentState;

// Loads the job of these bytes into what is lent, runs it with its budget, and answers the position before the first line of its sheet, whose records
// stand in the words. Tests 15 for the words too. Refused, everything is as it was: `refused N` is all that is printed then.
pub fn begin(
    s: &[u8],
    job: &mut LentJobMut<'_>,
    state: &mut LentState<'_>,
    last: &mut [u8],
    words: &mut [u64],
) -> Result<Listing, Refusal>
    ensures same_job { SameJob job.old job.new }
    ensures same_state { SameState state.old state.new }
    ensures begun { Begun s.now (slices_in job.old) (state_in state.old last.old) words.old (slices_in job.new) (state_in state.new last.new) words.new (numbered result) }
{
    if words.len() < 512 {
        return Err(Refusal::ShortBuffer);
    }
    let header = load(s, job, state, last)?;
    let loaded = LoadedJob {
        header,
        job: job.as_job(),
    };
    let position = run_loaded(loaded, state, last, words);
    Ok(position)
}
