// The tests of direct calls in their order (document 01, "Order"): 15, 8, 9, 13, 14. They read, and change nothing.
#![tactic(auto)]

ghost use Rattle.std.specs.Prelude.{◌≡◌, [], ◌∷◌, leb, length};
ghost use Rattle.std.specs.Result.{IfOk};
ghost use Rattle.reg_matrix.specs.Lists.{any, count, has};
ghost use Rattle.reg_matrix.specs.Refusals.{refusal, short_buffer};
ghost use Rattle.reg_matrix.specs.Refused.{refusal_in};
ghost use Rattle.allocator.specs.Layout.{stage_limits};
ghost use Rattle.job_parts.specs.Lent.{slices_of};
ghost use Rattle.records.specs.Fields.{reg_in};
ghost use Rattle.call_tests.specs.Testing.{is_free, hinted_at, named_to, unknown_in, clear_to, place_tests, evict_tests};

use allocator::Assignment;
use job::{HINT_REGS, HINT_STARTS, SETS, USES};
use job_parts::lent_job::{LentJob, LoadedJob};
use job_parts::{class_of, part_of, segments_of};
use lent::{at, from};
use records::assignment::held;
use reg_matrix::Refusal;
use stage::allocate::is_clear;
use table_words::buffers::{RegMatrix, Table};

// Whether one of the buffers lent to a call is below its limit.
#[tactic(auto, unfolding(reg_matrix::specs::Refusals::short_buffer))]
pub fn short_buffers(job: LentJob<'_>, table: Table<'_>, queue: &[u64], last: &[u8]) -> bool
    ensures { result ≡ short_buffer stage_limits (length job.entry.j64.now ∷ length job.entry.j32.now ∷ length job.entry.j16.now ∷ length job.entry.j8.now ∷ length job.entry.jf.now ∷ length table.entry.ends.now ∷ length table.entry.rests.now ∷ length queue.now ∷ length last.now ∷ []) }
{
    job.is_short() || table.is_short() || queue.len() < 1024 || last.len() < 512
}

// Whether a register is among these.
fn has_reg(regs: &[u8], reg: u8) -> bool
    ensures { result ≡ has reg regs.now }
{
    regs.contains(&reg)
}

// Whether the number k is in the set and has a hint that names the register.
fn hint_names(k: u16, set: u16, reg: u8, sets: &[u16], starts: &[u16], hints: &[u8]) -> bool
    ensures { result ≡ hinted_at sets.now starts.now hints.now set reg k }
{
    // the set first: of most numbers it is another one, and then no part is looked up
    at(sets, k as usize) == set && has_reg(part_of(starts, k, hints), reg)
}

// Whether a hint of a member of the set, of n numbers, names the register.
fn set_names(n: u16, set: u16, reg: u8, sets: &[u16], starts: &[u16], hints: &[u8]) -> bool
    ensures { result ≡ any (hinted_at sets.now starts.now hints.now set reg) (count 0 n) }
{
    (0..n).any(|k| hint_names(k, set, reg, sets, starts, hints))
}

// Whether the class of v, or a hint of a member of its set, names the register, where there are n numbers.
fn is_named(n: u16, v: u16, reg: u8, job: LentJob<'_>) -> bool
    ensures { result ≡ named_to (slices_of job.entry) n v reg }
{
    let class = class_of(v, job);
    if has_reg(class, reg) {
        return true;
    }
    let sets = from(job.j16, SETS);
    let set = at(sets, v as usize);
    let starts = from(job.j16, HINT_STARTS);
    set_names(n, set, reg, sets, starts, from(job.j8, HINT_REGS))
}

// Whether a record waits for a register.
fn is_free(a: Assignment) -> bool
    ensures { result ≡ is_free a }
{
    matches!(a, Assignment::Unassigned { .. })
}

// A placement that is asked for: of v in the register, with the weight of these binary32 bits.
#[derive(Clone, Copy, PartialEq, Eq, Debug)]
pub struct Placement {
    pub v: u16,
    pub reg: u8,
    pub weight: u32,
}

impl Placement {
    // Test 8: no such number, no such register, or one that v may not have.
    pub fn is_unknown(self, loaded: LoadedJob<'_>) -> bool
        ensures { result ≡ unknown_in loaded.entry.header.virt_regs loaded.entry.header.regs self.v self.reg (named_to (slices_of loaded.entry.job) loaded.entry.header.virt_regs self.v self.reg) }
    {
        let header = loaded.header;
        header.virt_regs <= self.v
            || header.regs <= self.reg
            || !is_named(header.virt_regs, self.v, self.reg, loaded.job)
    }

    // Whether the check of v's segments on the register's units reports nothing.
    #[tactic(auto, unfolding(crate::specs::Testing::clear_at))]
    pub fn is_clear(self, job: LentJob<'_>, table: Table<'_>) -> bool
        ensures { result ≡ clear_to (slices_of job.entry) table.entry.ends.now table.entry.rests.now self.v self.reg }
    {
        let units = at(job.j64, self.reg as usize);
        let uses = from(job.j64, USES);
        is_clear(units, RegMatrix { table, uses }, segments_of(self.v, job))
    }

    // Why it is refused: 15, 8, 9, 13, 14. It is told whether a buffer is short; `a` is the record of v.
    #[tactic(auto, unfolding(reg_matrix::specs::Refusals::refusal))]
    pub fn refusal(
        self,
        short: bool,
        a: Assignment,
        loaded: LoadedJob<'_>,
        table: Table<'_>,
    ) -> Result<(), Refusal>
        ensures { refusal_in result ≡ refusal (place_tests short (unknown_in loaded.entry.header.virt_regs loaded.entry.header.regs self.v self.reg (named_to (slices_of loaded.entry.job) loaded.entry.header.virt_regs self.v self.reg)) self.weight a (clear_to (slices_of loaded.entry.job) table.entry.ends.now table.entry.rests.now self.v self.reg)) }
    {
        if short {
            return Err(Refusal::ShortBuffer);
        }
        if self.is_unknown(loaded) {
            return Err(Refusal::UnknownNumber);
        }
        if 0x7F80_0000 <= self.weight {
            return Err(Refusal::BadWeight);
        }
        if !is_free(a) {
            return Err(Refusal::WrongStanding);
        }
        if !self.is_clear(loaded.job, table) {
            return Err(Refusal::Interference);
        }
        Ok(())
    }
}

// The register that an eviction takes from v, of n numbers, or why it is refused: 15, 8, 13. It is told whether a buffer is short; `a` is the record
// of v.
#[tactic(auto, unfolding(reg_matrix::specs::Refusals::refusal))]
pub fn evicted_reg(short: bool, a: Assignment, n: u16, v: u16) -> Result<u8, Refusal>
    ensures refused { refusal_in result ≡ refusal (evict_tests short (leb n v) a) }
    ensures held { IfOk result (λ reg. reg ≡ reg_in a) }
{
    if short {
        return Err(Refusal::ShortBuffer);
    }
    if n <= v {
        return Err(Refusal::UnknownNumber);
    }
    let Some(c) = held(a) else {
        return Err(Refusal::WrongStanding);
    };
    Ok(c.reg)
}
