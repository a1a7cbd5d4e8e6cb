// The virtual registers of a job, with their hints and segments. The readers of segments and of hints are lent only the two of a job's slices that
// they store in, so that the others are as they were without a word: the whole job would be no plainer. The counts `regs` and `classes` stay flat: a
// struct would be made of them for one call, and taken apart again in `virt_reg`. The loops go by number: all that the bytes should have is read, and
// what is lent may be shorter.
ghost use Rattle.std.specs.Prelude.{◌≡◌, [], ◌+◌, ◌-◌, ◌≤◌, ◌<◌, length};
ghost use Rattle.job.specs.Load.{hint as hint_of, segment as segment_of, hint_count, segment_count, hints as hints_of, segments as segments_of, virt_reg_at, virt_reg_after};
ghost use Rattle.job.specs.Parser.{each, if_bit};
ghost use Rattle.reader.specs.Read.{left, Num, Outcome, Counted, table_of};
ghost use Rattle.job_parts.specs.Lent.{slices_in, SameJob};
ghost use Rattle.fields.specs.Virt.{HintsAt, HintsIn, SegmentsAt, SegmentsIn, FieldsIn, VirtsIn, VirtOut, VirtsOut, TableOut};

use crate::totals::Totals;
use job::{
    CLASSES, HINT_REGS, HINT_STARTS, HINT_WEIGHTS, SEGMENT_STARTS, SETS, SIZES, TOS, VALUES,
    VirtRegFields,
};
use job_parts::lent_job::LentJobMut;
use lent::put;
use reader::read::{Reader, bit};
use reg_matrix::Refusal;
use virt_reader::{hint, range, virt_fields};

// The next `count` segments of one virtual register, stored from place g on.
fn segments(
    reader: &mut Reader<'_>,
    count: usize,
    g: usize,
    j32: &mut [u32],
    j16: &mut [u16],
) -> Result<(), Refusal>
    requires { g + count ≤ 512 }
    ensures same { reader.new.bytes ≡ reader.old.bytes }
    ensures read { Outcome (left reader.new) (each segment_of count [] (left reader.old)) result (SegmentsAt g j32.old j16.old j32.new j16.new) }
{
    let mut past: u32 = 0;
    for i in 0..count {
        let seg = range(reader, past, true)?;
        put(j32, g + i, seg.from);
        put(j32, TOS + g + i, seg.to);
        put(j16, VALUES + g + i, seg.value);
        past = seg.to;
    }
    Ok(())
}

// How many segments the next virtual register has.
#[tactic(auto, unfolding(job::specs::Load::segment_count))]
fn segment_count(reader: &mut Reader<'_>, totals: Totals) -> Result<u64, Refusal>
    ensures same { reader.new.bytes ≡ reader.old.bytes }
    ensures read { Num (left reader.old) (left reader.new) (segment_count totals.segments) (512 - totals.segments) result }
{
    let k = reader.little::<2>()?;
    if 512 - totals.segments < k {
        return Err(Refusal::OverLimit);
    }
    if k == 0 {
        return Err(Refusal::Empty);
    }
    Ok(k)
}

// The segments of the next virtual register, stored behind those of the earlier ones: how many.
#[tactic(auto, unfolding(job::specs::Load::segments))]
fn segment_table(
    reader: &mut Reader<'_>,
    totals: Totals,
    j32: &mut [u32],
    j16: &mut [u16],
) -> Result<u64, Refusal>
    ensures same { reader.new.bytes ≡ reader.old.bytes }
    ensures read { Counted (left reader.new) (segments_of totals.segments (left reader.old)) length (512 - totals.segments) result (SegmentsAt totals.segments j32.old j16.old j32.new j16.new) }
{
    let k = segment_count(reader, totals)?;
    segments(reader, k as usize, totals.segments as usize, j32, j16)?;
    Ok(k)
}

// How many hints the next virtual register has.
#[tactic(auto, unfolding(job::specs::Load::hint_count))]
fn hint_count(reader: &mut Reader<'_>, totals: Totals) -> Result<u64, Refusal>
    ensures same { reader.new.bytes ≡ reader.old.bytes }
    ensures read { Num (left reader.old) (left reader.new) (hint_count totals.hints) (1024 - totals.hints) result }
{
    let k = reader.little::<1>()?;
    if 64 < k {
        return Err(Refusal::OverLimit);
    }
    if 1024 < totals.hints + k {
        return Err(Refusal::OverLimit);
    }
    if k == 0 {
        return Err(Refusal::Empty);
    }
    Ok(k)
}

// The next `count` hints of one virtual register, stored from place h on.
fn hints(
    reader: &mut Reader<'_>,
    count: usize,
    regs: u64,
    h: usize,
    j8: &mut [u8],
    jf: &mut [f32],
) -> Result<(), Refusal>
    requires { h + count ≤ 1024 }
    ensures same { reader.new.bytes ≡ reader.old.bytes }
    ensures read { Outcome (left reader.new) (each (λ before. hint_of regs) count [] (left reader.old)) result (HintsAt h j8.old jf.old j8.new jf.new) }
{
    for i in 0..count {
        let x = hint(reader, regs)?;
        put(j8, HINT_REGS + h + i, x.reg);
        put(jf, HINT_WEIGHTS + h + i, x.weight);
    }
    Ok(())
}

// The hints of the next virtual register where their bit stands, stored behind those of the earlier ones: how many.
#[tactic(auto, unfolding(job::specs::Load::hints))]
fn hint_table(
    reader: &mut Reader<'_>,
    stands: bool,
    regs: u64,
    totals: Totals,
    j8: &mut [u8],
    jf: &mut [f32],
) -> Result<u64, Refusal>
    ensures same { reader.new.bytes ≡ reader.old.bytes }
    ensures read { Counted (left reader.new) (if_bit stands [] (hints_of regs totals.hints) (left reader.old)) length (1024 - totals.hints) result (HintsAt totals.hints j8.old jf.old j8.new jf.new) }
{
    if !stands {
        return Ok(0);
    }
    let k = hint_count(reader, totals)?;
    hints(reader, k as usize, regs, totals.hints as usize, j8, jf)?;
    Ok(k)
}

// The virtual register `n`: its fields, and the totals with it.
#[tactic(auto, unfolding(job::specs::Load::virt_reg_at))]
fn virt_reg(
    reader: &mut Reader<'_>,
    regs: u8,
    classes: u8,
    n: u16,
    totals: Totals,
    job: &mut LentJobMut<'_>,
) -> Result<(VirtRegFields, Totals), Refusal>
    ensures same { SameJob job.old job.new × (reader.new.bytes ≡ reader.old.bytes) }
    ensures maps { job.new.j64.now ≡ job.old.j64.now }
    ensures read { VirtOut (left reader.new) (virt_reg_at regs classes n totals.hints totals.segments (left reader.old)) totals result (HintsIn totals.hints (slices_in job.old) (slices_in job.new)) (SegmentsIn totals.segments (slices_in job.old) (slices_in job.new)) }
{
    let f = virt_fields(reader, classes, n)?;
    let stands = bit(f.map as u64, 4);
    let hints = hint_table(reader, stands, regs as u64, totals, job.j8, job.jf)?;
    let segments = segment_table(reader, totals, job.j32, job.j16)?;
    let totals = Totals {
        hints: totals.hints + hints,
        segments: totals.segments + segments,
    };
    Ok((f, totals))
}

// Stores the fields of the virtual register `i`.
fn put_fields(f: VirtRegFields, i: usize, job: &mut LentJobMut<'_>)
    requires { i < 65536 }
    ensures same { SameJob job.old job.new }
    ensures maps { job.new.j64.now ≡ job.old.j64.now }
    ensures stored { FieldsIn f i (slices_in job.old) (slices_in job.new) }
{
    put(job.j32, SIZES + i, f.size);
    put(job.j16, SETS + i, f.value_set);
    put(job.j8, CLASSES + i, f.class);
    put(job.jf, i, f.spill_weight);
}

// The virtual registers: their fields, where the hints and the segments of each end, the hints and the segments of all. Answers the totals of all.
fn virt_regs(
    reader: &mut Reader<'_>,
    count: u16,
    regs: u8,
    classes: u8,
    job: &mut LentJobMut<'_>,
) -> Result<Totals, Refusal>
    requires { count ≤ 512 }
    ensures same { SameJob job.old job.new × (reader.new.bytes ≡ reader.old.bytes) }
    ensures maps { job.new.j64.now ≡ job.old.j64.now }
    ensures read { VirtsOut (left reader.new) (each (virt_reg_after regs classes) count [] (left reader.old)) result (VirtsIn (slices_in job.old) (slices_in job.new)) }
{
    let mut totals = Totals::none();
    for i in 0..count as usize {
        let (f, after) = virt_reg(reader, regs, classes, i as u16, totals, job)?;
        put_fields(f, i, job);
        totals = after;
        put(job.j16, HINT_STARTS + 1 + i, totals.hints as u16);
        put(job.j16, SEGMENT_STARTS + 1 + i, totals.segments as u16);
    }
    Ok(totals)
}

// The virtual registers where their bit stands: how many, and the totals of their hints and segments.
pub fn virt_table(
    reader: &mut Reader<'_>,
    stands: bool,
    regs: u8,
    classes: u8,
    job: &mut LentJobMut<'_>,
) -> Result<(u16, Totals), Refusal>
    ensures same { SameJob job.old job.new × (reader.new.bytes ≡ reader.old.bytes) }
    ensures maps { job.new.j64.now ≡ job.old.j64.now }
    ensures read { TableOut (left reader.new) (table_of stands 2 512 (virt_reg_after regs classes) (left reader.old)) result (VirtsIn (slices_in job.old) (slices_in job.new)) }
{
    let k = reader.count::<2>(stands, 512)?;
    let totals = virt_regs(reader, k as u16, regs, classes, job)?;
    Ok((k as u16, totals))
}
