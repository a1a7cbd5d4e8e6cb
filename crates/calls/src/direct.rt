// Direct placements and evictions: `Context::assign` and `evict` (`allocator/mod.rs`), as calls of their own.
ghost use Rattle.std.specs.Prelude.{◌≡◌, List, get_or, set};
ghost use Rattle.allocator.specs.declared.Assignment.{Assignment};
ghost use Rattle.allocator.specs.declared.Assignment.TheVariants.{Dead};
ghost use Rattle.table_words.specs.Buffers.{SameState};
ghost use Rattle.job_parts.specs.Lent.{slices_of};
ghost use Rattle.run_loop.specs.Running.{state_in};
ghost use Rattle.reg_matrix.specs.Refused.{number_in};
ghost use Rattle.calls.specs.Calling.{afterwards, first_in, second_in, Placed, Evicted};

use allocator::Assignment;
use call_tests::{Placement, evicted_reg, short_buffers};
use job_parts::lent_job::LoadedJob;
use lent::put;
use moves::{take, take_back};
use records::changes::{placed, waiting};
use reg_matrix::Refusal;
use table_words::buffers::LentState;

// The record of v. A number above 511 has none.
fn record_at(records: [Assignment; 512], v: u16) -> Assignment
    ensures { result ≡ get_or records v Dead }
{
    records.get(v as usize).copied().unwrap_or(Assignment::Dead)
}

// The records with that of v in its place.
fn with_record(records: [Assignment; 512], v: u16, a: Assignment) -> [Assignment; 512]
    ensures { result ≡ set records v a }
{
    let mut all = records;
    put(&mut all, v as usize, a);
    all
}

// Makes the placement, where `a` is the record of its number v: v's segments go into the table, it leaves the queue, and the register is the last
// one of its set. The record afterwards keeps the flag. Refused, nothing is changed: 15 where a buffer is short, 8 where there is no such number or
// register or v may not have it, 9 where the weight is infinite, no number or has the sign, 13 where v is not unassigned, 14 where the check reports
// anything.
pub fn place(
    asked: Placement,
    a: Assignment,
    loaded: LoadedJob<'_>,
    state: &mut LentState<'_>,
    last: &mut [u8],
) -> Result<Assignment, Refusal>
    ensures same { SameState state.old state.new }
    ensures called { (rs : List Assignment) → a ≡ get_or rs asked.v Dead → Placed loaded.entry.header (slices_of loaded.entry.job) asked.v asked.reg asked.weight (state_in state.old last.old) rs (state_in state.new last.new) (set rs asked.v (afterwards a result)) (number_in result) }
{
    let lent = &*state;
    let table = lent.as_table();
    let short = short_buffers(loaded.job, table, lent.queue, last);
    asked.refusal(short, a, loaded, table)?;
    take(asked.v, asked.reg, loaded.job, state, last);
    Ok(placed(a, asked.reg, asked.weight))
}

// An eviction that is asked for.
#[derive(Clone, Copy, PartialEq, Eq, Debug)]
pub struct Eviction {
    pub v: u16,
}

impl Eviction {
    // Makes the eviction, where `a` is the record of v: its entries leave the table, and it is queued at stage Evict. Answers the record afterwards,
    // which keeps the flag, and the register that it held. Refused, nothing is changed: 15 where a buffer is short, 8 where there is no such number,
    // 13 where v holds no register.
    pub fn evict(
        self,
        a: Assignment,
        loaded: LoadedJob<'_>,
        state: &mut LentState<'_>,
        last: &[u8],
    ) -> Result<(Assignment, u8), Refusal>
        ensures same { SameState state.old state.new }
        ensures called { (rs : List Assignment) → a ≡ get_or rs self.v Dead → Evicted loaded.entry.header (slices_of loaded.entry.job) self.v (state_in state.old last.now) rs (state_in state.new last.now) (set rs self.v (afterwards a (first_in result))) (number_in result) (second_in result) }
    {
        let lent = &*state;
        let short = short_buffers(loaded.job, lent.as_table(), lent.queue, last);
        let reg = evicted_reg(short, a, loaded.header.virt_regs, self.v)?;
        take_back(self.v, reg, loaded.job, state);
        Ok((waiting(a), reg))
    }
}

// Makes the placement among all records: v's segments go into the table, it leaves the queue, its record says so and keeps its flag, and the
// register is the last one of its set. Answers the records afterwards. Refused, nothing is changed: 15 where a buffer is short, 8 where there is no
// such number or register or v may not have it, 9 where the weight is infinite, no number or has the sign, 13 where v is not unassigned, 14 where
// the check reports anything.
pub fn assign(
    records: [Assignment; 512],
    asked: Placement,
    loaded: LoadedJob<'_>,
    state: &mut LentState<'_>,
    last: &mut [u8],
) -> Result<[Assignment; 512], Refusal>
    ensures same { SameState state.old state.new }
    ensures called { Placed loaded.entry.header (slices_of loaded.entry.job) asked.v asked.reg asked.weight (state_in state.old last.old) records (state_in state.new last.new) (afterwards records result) (number_in result) }
{
    let a = record_at(records, asked.v);
    let after = place(asked, a, loaded, state, last)?;
    Ok(with_record(records, asked.v, after))
}

// Evicts v: its entries leave the table, it is queued at stage Evict, and its record says so and keeps its flag. Answers the records afterwards and
// the register that v held. Refused, nothing is changed: 15 where a buffer is short, 8 where there is no such number, 13 where v holds no register.
pub fn evict(
    records: [Assignment; 512],
    v: u16,
    loaded: LoadedJob<'_>,
    state: &mut LentState<'_>,
    last: &[u8],
) -> Result<([Assignment; 512], u8), Refusal>
    ensures same { SameState state.old state.new }
    ensures called { Evicted loaded.entry.header (slices_of loaded.entry.job) v (state_in state.old last.now) records (state_in state.new last.now) (afterwards records (first_in result)) (number_in result) (second_in result) }
{
    let a = record_at(records, v);
    let asked = Eviction { v };
    let (after, reg) = asked.evict(a, loaded, state, last)?;
    Ok((with_record(records, v, after), reg))
}
