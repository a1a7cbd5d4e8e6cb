// A loaded job run with its budget, and the lines of its sheet one by one.
ghost use Rattle.reg_matrix.specs.Refused.{numbered};
ghost use Rattle.table_words.specs.Buffers.{SameState};
ghost use Rattle.job_parts.specs.Lent.{slices_of};
ghost use Rattle.run_loop.specs.Running.{state_in};
ghost use Rattle.lines.specs.LineTexts.{sheet_of};
ghost use Rattle.sheets.specs.Printing.{RunStored, NextLine};

use job_parts::lent_job::LoadedJob;
use lent::at;
use lines::LentSheet;
use listing::Listing;
use record_words::record_of;
use reg_matrix::Refusal;
use run_loop::run_on;
use stage_loader::store_first_records;
use table_words::buffers::LentState;

// Runs what was loaded with the job's budget, with its records in the words. The answer is the position before the sheet's first line.
pub fn run_loaded(
    loaded: LoadedJob<'_>,
    state: &mut LentState<'_>,
    last: &mut [u8],
    words: &mut [u64],
) -> Listing
    ensures same { SameState state.old state.new }
    ensures stored { RunStored loaded.entry.header (slices_of loaded.entry.job) (state_in state.old last.old) words.old (state_in state.new last.new) words.new result }
{
    store_first_records(words);
    let n = words.len().min(512);
    let all = &mut words[..n];
    let budget = loaded.header.budget as u64;
    let end = run_on(budget, loaded.job, state, last, all);
    Listing::start(end.ending, end.dequeues, loaded.header)
}

// Stores the next line of the sheet from the front of the lent line, and answers its length and the position after it, or that there is none. What is
// lent is what `begin` left. Refused with 15 where the lent line is below 256 bytes.
#[tactic(auto, using(crate::proofs::NextLaws::next_line))]
pub fn next(
    position: Listing,
    sheet: LentSheet<'_>,
    words: &[u64],
    line: &mut [u8],
) -> Result<Option<(usize, Listing)>, Refusal>
    ensures { NextLine position (sheet_of sheet.entry) words.now line.old line.new (numbered result) }
{
    let record = record_of(at(words, position.number()));
    position.next(record, sheet, line)
}
