// A run with a budget (`Allocator::run`): dequeues, the greatest key first, until nobody waits, the budget is spent, or too many are live.
#![tactic(auto)]

ghost use Rattle.std.specs.Prelude.{◌≡◌, get_or};
ghost use Rattle.table_words.specs.Buffers.{SameState};
ghost use Rattle.job.specs.Layout.{lists_in};
ghost use Rattle.job_parts.specs.Lent.{slices_of};
ghost use Rattle.queue.specs.QueueWalk.{decoded};
ghost use Rattle.run_loop.specs.Running.{state_in, ending_number, DequeueMade, RunMade};

use allocator::Ending;
use context::carry::carry_out;
use decisions::{Decided, decide};
use job_parts::lent_job::LentJob;
use queue::{Queued, greatest};
use table_words::buffers::LentState;

// How a run ended, and after how many dequeues.
#[derive(Clone, Copy)]
pub struct RunEnd {
    pub ending: Ending,
    pub dequeues: u64,
}

// The number of a run's word, in which the C interface answers. A function and no method: the rules give an ending a word and no number, so that
// what says its number stands here.
pub fn ending_number(ending: Ending) -> u64
    ensures { result ≡ ending_number ending }
{
    ending as u64
}

// The number that is dequeued next, and its stage.
fn first(state: &LentState<'_>) -> Option<Queued>
    ensures { result ≡ decoded (get_or state.now.queue.now 1 0) }
{
    greatest(state.queue)
}

// Decides the dequeue of the next number and carries it out. Whether the run ends with it, as too many are live.
fn dequeue(
    next: Queued,
    job: LentJob<'_>,
    state: &mut LentState<'_>,
    last: &mut [u8],
    words: &mut [u64],
) -> bool
    ensures same { SameState state.old state.new }
    ensures after { DequeueMade next.number next.stage (lists_in (slices_of job.entry)) (state_in state.old last.old) words.old (state_in state.new last.new) words.new result }
{
    let v = next.number;
    let decided = decide(v, next.stage, words, job, state.as_table(), last);
    carry_out(&decided, v, job, state, last, words);
    matches!(decided, Decided::Fails)
}

// Makes at most `budget` dequeues, where the records stand in the words (`record_words`). `dequeues` counts them; there is no list to walk.
pub fn run_on(
    budget: u64,
    job: LentJob<'_>,
    state: &mut LentState<'_>,
    last: &mut [u8],
    words: &mut [u64],
) -> RunEnd
    ensures same { SameState state.old state.new }
    ensures after { RunMade budget (lists_in (slices_of job.entry)) (state_in state.old last.old) words.old (state_in state.new last.new) words.new result }
{
    for dequeues in 0..budget {
        let Some(next) = first(state) else {
            return RunEnd {
                ending: Ending::Done,
                dequeues,
            };
        };
        if dequeue(next, job, state, last, words) {
            return RunEnd {
                ending: Ending::TooMany,
                dequeues: dequeues + 1,
            };
        }
    }
    let ending = match first(state) {
        Some(_) => Ending::Spent,
        None => Ending::Done,
    };
    RunEnd {
        ending,
        dequeues: budget,
    }
}
