// Loading a stage: the job, its table, the queue and the last registers.
#![tactic(auto)]

ghost use Rattle.std.specs.Prelude.{◌≡◌, ◌≤◌, map, length};
ghost use Rattle.std.proofs.lemmas.List.Edits.{sets};
ghost use Rattle.table_words.specs.Buffers.{SameState};
ghost use Rattle.job_parts.specs.Lent.{slices_in, SameJob};
ghost use Rattle.run_loop.specs.Running.{state_in};
ghost use Rattle.records.specs.Fields.{first_records};
ghost use Rattle.record_words.specs.Words.{record_word, records_in};
ghost use Rattle.stage_loader.specs.StageLoading.{StageLoadDone};

use allocator::Assignment;
use job::{HINT_STARTS, JobHeader, SIZES};
use job_parts::lent_job::LentJobMut;
use lent::{fill, from, pad};
use queue::init;
use record_words::word_of;
use reg_matrix::Refusal;
use table_words::buffers::{LentState, TableMut};

pub mod buffers;

// Stores the records as they start out, as words from the front. What there is no room for is not stored. No array of them is made: it would stand on
// the stack beside those of a load.
pub fn store_first_records(words: &mut [u64])
    ensures words_after { words.new ≡ sets words.old 0 (map record_word first_records) }
    ensures read_back { 512 ≤ length words.old → records_in words.new ≡ first_records }
{
    let first = word_of(Assignment::Unassigned {
        evicted_for_preference: false,
    });
    fill(words, 0, 512, first);
}

// Loads the job of these bytes into what is lent: tests 15, the job's length (4), its fields in byte order, then 2, 10, 11, 12. A refusal leaves
// everything as it was; else all wait in the queue at stage Evict, no set has a last register, and `records::first_records`
// are the records.
pub fn load(
    s: &[u8],
    job: &mut LentJobMut<'_>,
    state: &mut LentState<'_>,
    last: &mut [u8],
) -> Result<JobHeader, Refusal>
    ensures same { SameJob job.old job.new × SameState state.old state.new }
    ensures loaded { StageLoadDone s.now (slices_in job.old) (state_in state.old last.old) (slices_in job.new) (state_in state.new last.new) result }
{
    if state.queue.len() < 1024 {
        return Err(Refusal::ShortBuffer);
    }
    if last.len() < 512 {
        return Err(Refusal::ShortBuffer);
    }
    // no method can lend it (`LentState`)
    let mut table = TableMut {
        ends: state.ends,
        rests: state.rests,
    };
    let header = loader::load::load(s, job, &mut table)?;
    let stored = job.as_job();
    let starts = from(stored.j16, HINT_STARTS);
    init(
        state.queue,
        header.virt_regs,
        starts,
        from(stored.j32, SIZES),
    );
    pad(last, 0, 512);
    Ok(header)
}
