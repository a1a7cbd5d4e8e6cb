// One move of a number: it takes a register, loses it, or is passed by; the table, the queue and the last registers follow.
#![tactic(auto)]

ghost use Rattle.std.specs.Prelude.{◌≡◌, get_or, ◌+◌, ◌<◌};
ghost use Rattle.table_words.specs.Buffers.{SameState};
ghost use Rattle.job.specs.Layout.{lists_in};
ghost use Rattle.job_parts.specs.Lent.{slices_of};
ghost use Rattle.job_parts.specs.Shares.{froms_in, tos_in};
ghost use Rattle.allocator.specs.declared.Stage.TheVariants.{Split};
ghost use Rattle.queue.specs.QueueWalk.{set_word};
ghost use Rattle.moves.specs.Moving.{key_in, TakenBack, Taken, PassedBy};

use allocator::{Assignment, Stage};
use decisions::Decided;
use job::{HINT_STARTS, SETS, SIZES, USES};
use job_parts::lent_job::LentJob;
use job_parts::segments_of;
use lent::{at, from, put};
use placing::assign::LiveRange;
use queue::{enqueue, has_hints, remove};
use record_words::word_of;
use table_words::buffers::{LentState, TableMut};
use table_words::segments::Segments;

// The number is queued at a stage.
fn queue_at(stage: Stage, v: u16, job: LentJob<'_>, queue: &mut [u64])
    ensures { queue.new ≡ set_word v (key_in (lists_in (slices_of job.entry)) v stage + 1) queue.old }
{
    let hints = has_hints(from(job.j16, HINT_STARTS), v);
    let size = at(from(job.j32, SIZES), v as usize);
    enqueue(queue, v, hints, size, stage);
}

// The segments of a number, for the units of a register.
fn range_of<'a>(v: u16, reg: u8, job: LentJob<'a>) -> LiveRange<Segments<'a>>
    ensures v { result.v ≡ v }
    ensures units { result.units ≡ get_or job.entry.j64.now reg 0 }
    ensures froms { result.segments.froms.now ≡ froms_in (lists_in (slices_of job.entry)) v }
    ensures tos { result.segments.tos.now ≡ tos_in (lists_in (slices_of job.entry)) v }
{
    LiveRange {
        v,
        units: at(job.j64, reg as usize),
        segments: segments_of(v, job),
    }
}

// The number loses its register: its entries leave the table, and it is queued at stage Evict.
pub fn take_back(v: u16, reg: u8, job: LentJob<'_>, state: &mut LentState<'_>)
    ensures same { SameState state.old state.new }
    ensures after { TakenBack v reg (lists_in (slices_of job.entry)) state.old state.new }
{
    let range = range_of(v, reg, job);
    // no method can lend it (`LentState`)
    let mut table = TableMut {
        ends: state.ends,
        rests: state.rests,
    };
    // it is not refused where the number holds the register, and of any other nothing is promised
    let _ = range.evict(&mut table, from(job.j64, USES));
    queue_at(Stage::Evict, v, job, state.queue);
}

// How a register is kept as the last one of a set: plus one, as 0 stands for none. It is no Option, since C lends these bytes.
fn last_word(reg: u8) -> u8
    ensures { reg < 255 → result ≡ reg + 1 }
{
    reg.wrapping_add(1)
}

// The number takes the register: its segments go into the table, it leaves the queue, and the register is the last one of its set.
pub fn take(v: u16, reg: u8, job: LentJob<'_>, state: &mut LentState<'_>, last: &mut [u8])
    ensures same { SameState state.old state.new }
    ensures after { Taken v reg (lists_in (slices_of job.entry)) state.old last.old state.new last.new }
{
    let range = range_of(v, reg, job);
    // no method can lend it (`LentState`)
    let mut table = TableMut {
        ends: state.ends,
        rests: state.rests,
    };
    // it is not refused where the register is clear, and of any other nothing is promised
    let _ = range.assign(&mut table, from(job.j64, USES));
    remove(state.queue, v);
    let set = at(from(job.j16, SETS), v as usize);
    put(last, set as usize, last_word(reg));
}

// A number that takes no register is left over, is queued at stage Split, or leaves the queue.
pub fn pass_by(decided: &Decided, v: u16, job: LentJob<'_>, queue: &mut [u64], words: &mut [u64])
    ensures { PassedBy decided.now v (key_in (lists_in (slices_of job.entry)) v Split) queue.old words.old queue.new words.new }
{
    match decided {
        Decided::Leaves => {
            remove(queue, v); // left over
            put(words, v as usize, word_of(Assignment::Dead));
        }
        Decided::Splits => queue_at(Stage::Split, v, job, queue),
        Decided::Fails => {
            remove(queue, v); // too many
        }
        Decided::Takes(_) => {}
        Decided::Evicts { .. } => {}
    }
}
