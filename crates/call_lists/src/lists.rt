// Lists of calls in lent numbers, carried out one after another: placements, evictions and runs as `Context::assign`, `evict` and `Allocator::run`
// (`allocator/mod.rs`) make them. Document 01, "Order" and "Holding".
ghost use Rattle.std.specs.Prelude.{◌≡◌, [], ◌∷◌, ◌+◌, ◌<◌, drop};
ghost use Rattle.std.proofs.lemmas.List.Edits.{sets};
ghost use Rattle.table_words.specs.Buffers.{SameState};
ghost use Rattle.job_parts.specs.Lent.{slices_of};
ghost use Rattle.run_loop.specs.Running.{state_in};
ghost use Rattle.reg_matrix.specs.Refused.{number_in};
ghost use Rattle.calls.specs.Calling.{afterwards, first_in, second_in, sizes_of};
ghost use Rattle.call_lists.specs.Listed.{call_in, listed_by, listed, answer_numbers, word_in, value_in, CallAnswered, CallStored, ListDone, ListCarriedOut};

use allocator::Assignment;
use call_tests::Placement;
use calls::direct::{assign, evict};
use calls::runs::run;
use job_parts::lent_job::LoadedJob;
use lent::put;
use narrow::Narrow;
use reg_matrix::Refusal;
use run_loop::{RunEnd, ending_number};
use table_words::buffers::LentState;

// Stores the three numbers that a call answered, from place `to` on.
fn store_numbers(out: &mut [u64], to: usize, refusal: u64, ending: u64, value: u64)
    requires { to + 2 < 0x1_0000_0000_0000_0000 }
    ensures { out.new ≡ sets out.old to (refusal ∷ ending ∷ value ∷ []) }
{
    put(out, to, refusal);
    put(out, to + 1, ending);
    put(out, to + 2, value);
}

// A call of a list: a placement, the eviction of a virtual register, or a run with a budget.
#[derive(Clone, Copy, PartialEq, Eq, Debug)]
pub enum ListedCall {
    Place(Placement),
    Evict(u16),
    Run(u64),
}

// What a call answers that is carried out: the register given or taken away, or how a run ended.
#[derive(Clone, Copy)]
pub enum CallAnswer {
    Placed(u8),
    Evicted(u8),
    Ran(RunEnd),
}

impl CallAnswer {
    // Its two numbers: that of a run's word or 0, and the register given or taken away, or the dequeues.
    pub fn numbers(self) -> (u64, u64)
        ensures { result ≡ answer_numbers self }
    {
        match self {
            CallAnswer::Placed(reg) => (0, reg as u64),
            CallAnswer::Evicted(reg) => (0, reg as u64),
            CallAnswer::Ran(end) => (ending_number(end.ending), end.dequeues),
        }
    }
}

// The call of these four words, if the first is a kind.
#[tactic(auto, unfolding(crate::specs::Listed::listed_by))]
fn listed_by(kind: u64, number: u64, reg: u64, weight: u64) -> Option<ListedCall>
    ensures { result ≡ listed_by kind number reg weight }
{
    match kind {
        1 => Some(ListedCall::Place(Placement {
            v: u16::cut(number),
            reg: u8::cut(reg),
            weight: u32::cut(weight),
        })),
        2 => Some(ListedCall::Evict(u16::cut(number))),
        3 => Some(ListedCall::Run(number)),
        _ => None,
    }
}

impl ListedCall {
    // Makes the call: the records afterwards, and its answer. Refused, nothing is changed.
    pub fn make(
        self,
        all: [Assignment; 512],
        loaded: LoadedJob<'_>,
        state: &mut LentState<'_>,
        last: &mut [u8],
    ) -> Result<([Assignment; 512], CallAnswer), Refusal>
        ensures same { SameState state.old state.new }
        ensures answered { CallAnswered loaded.entry.header (slices_of loaded.entry.job) (call_in (sizes_of (slices_of loaded.entry.job) (state_in state.old last.old)) self) (state_in state.old last.old) all (state_in state.new last.new) (afterwards all (first_in result)) (number_in result) (word_in result) (value_in result) }
    {
        match self {
            ListedCall::Place(asked) => {
                let after = assign(all, asked, loaded, state, last)?;
                Ok((after, CallAnswer::Placed(asked.reg)))
            }
            ListedCall::Evict(v) => {
                let (after, reg) = evict(all, v, loaded, state, last)?;
                Ok((after, CallAnswer::Evicted(reg)))
            }
            ListedCall::Run(budget) => {
                let (after, end) = run(all, budget, loaded.job, state, last)?;
                Ok((after, CallAnswer::Ran(end)))
            }
        }
    }

    // Makes the call and stores its answer from place `to` on. The records afterwards.
    fn carry_out(
        self,
        all: [Assignment; 512],
        loaded: LoadedJob<'_>,
        state: &mut LentState<'_>,
        last: &mut [u8],
        out: &mut [u64],
        to: usize,
    ) -> [Assignment; 512]
        requires { to + 2 < 0x1_0000_0000_0000_0000 }
        ensures same { SameState state.old state.new }
        ensures stored { CallStored loaded.entry.header (slices_of loaded.entry.job) (call_in (sizes_of (slices_of loaded.entry.job) (state_in state.old last.old)) self) (state_in state.old last.old) all (state_in state.new last.new) result out.old to out.new }
    {
        match self.make(all, loaded, state, last) {
            Ok(done) => {
                let (word, value) = done.1.numbers();
                store_numbers(out, to, 0, word, value);
                done.0
            }
            Err(refusal) => {
                store_numbers(out, to, refusal.number(), 0, 0);
                all
            }
        }
    }
}

// Carries out the calls of the list one after another: the records afterwards, and how many calls there were.
fn carry_out_calls(
    records: [Assignment; 512],
    list: &[u64],
    loaded: LoadedJob<'_>,
    state: &mut LentState<'_>,
    last: &mut [u8],
    out: &mut [u64],
) -> ([Assignment; 512], u64)
    ensures same { SameState state.old state.new }
    ensures done { ListDone loaded.entry.header (slices_of loaded.entry.job) list.now (state_in state.old last.old) records out.old (state_in state.new last.new) result.0 out.new result.1 }
{
    let mut all = records;
    let (calls, _) = list.as_chunks::<4>();
    for (i, words) in calls.iter().enumerate() {
        let Some(call) = listed_by(words[0], words[1], words[2], words[3]) else {
            return (all, i as u64);
        };
        // tried, and not covered by the check: the call's array given straight to `all`
        let after = call.carry_out(all, loaded, state, last, out, 3 * i);
        all = after;
    }
    (all, calls.len() as u64)
}

// Carries out a list of calls, one after another, each on what the last one left; a refused one changes nothing, and the next is made all the same. A
// call is four words: its kind (1 a placement, 2 an eviction, 3 a run), a number or the run's budget, a register, and the bits of a weight; a kind
// reads what it needs of them. A number that has no room in 16 bits, a register in 8 or bits in 32 stand for the greatest there, which is refused.
// The list ends where four words are no longer left, or at a word that is no kind. For each call three numbers go into the answers, from their front
// on: the refusal or 0; the word of a run (1 done, 2 spent, 3 toomany) or 0; the register given or taken away, or the dequeues. What returns is the
// records afterwards, and how many calls were made. The list is refused with 15 where the answers do not have three places for each four words of it,
// and then nothing is changed.
pub fn carry_out_list(
    records: [Assignment; 512],
    list: &[u64],
    loaded: LoadedJob<'_>,
    state: &mut LentState<'_>,
    last: &mut [u8],
    answers: &mut [u64],
) -> Result<([Assignment; 512], u64), Refusal>
    ensures same { SameState state.old state.new }
    ensures carried { ListCarriedOut loaded.entry.header (slices_of loaded.entry.job) list.now (state_in state.old last.old) records answers.old (state_in state.new last.new) (afterwards records (first_in result)) answers.new (number_in result) (second_in result) }
{
    if answers.len() / 3 < list.len() / 4 {
        return Err(Refusal::ShortBuffer);
    }
    Ok(carry_out_calls(records, list, loaded, state, last, answers))
}
