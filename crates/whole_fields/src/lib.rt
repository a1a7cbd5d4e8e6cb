// Reading a job: all its fields, in byte order, from bytes into lent numbers, as the parsers of the crate job say. The tables are read in the crates
// reg_reader, fixed_reader and fields.
#![tactic(auto)]

ghost use Rattle.std.specs.Prelude.{◌≡◌};
ghost use Rattle.job.specs.Load.{job_fields};
ghost use Rattle.job_parts.specs.Lent.{slices_in, SameJob};
ghost use Rattle.reader.specs.Read.{left, Field, Stored, ClassesAt};
ghost use Rattle.fixed_reader.specs.Fixed.{FixedIn, SameFixed};
ghost use Rattle.whole_fields.specs.Probe.{probe_view, probe_field};
ghost use Rattle.whole_fields.specs.Whole.{FirstOut, LastOut, JobOut, JobAt};

use fields::virt::virt_table;
use fixed_reader::{LentFixed, fixed_table};
use job::JobHeader;
use job_parts::lent_job::LentJobMut;
use reader::read::{Reader, bit};
use reg_matrix::Refusal;
use reg_reader::{class_table, reg_table};
use virt_reader::range;

// How many fixed reservations and segments a job has, which the header does not count.
#[derive(Clone, Copy, PartialEq, Eq, Debug)]
pub struct TableSizes {
    pub fixed: usize,
    pub segments: usize,
}

// The probe range where its bit stands.
fn probe_range(reader: &mut Reader<'_>, stands: bool) -> Result<Option<(u32, u32)>, Refusal>
    ensures same { reader.new.bytes ≡ reader.old.bytes }
    ensures read { probe_view (left reader.new) result ≡ probe_field stands (left reader.old) }
{
    if !stands {
        return Ok(None);
    }
    let r = range(reader, 0, false)?;
    Ok(Some((r.from, r.to)))
}

// The header's map, and how many registers, classes and fixed reservations there are.
#[derive(Clone, Copy, PartialEq, Eq, Debug)]
pub struct FirstTables {
    pub map: u8,
    pub regs: u8,
    pub classes: u8,
    pub fixed: usize,
}

// The tables before the virtual registers, stored from place 0 on.
#[tactic(auto, unfolding(job::specs::Load::job_fields))]
fn first_tables(
    reader: &mut Reader<'_>,
    job: &mut LentJobMut<'_>,
    fixed: &mut LentFixed<'_>,
) -> Result<FirstTables, Refusal>
    ensures same { SameJob job.old job.new × SameFixed fixed.old fixed.new × (reader.new.bytes ≡ reader.old.bytes) }
    ensures others { (job.new.j32.now ≡ job.old.j32.now) × (job.new.jf.now ≡ job.old.jf.now) }
    ensures read { FirstOut (left reader.new) (job_fields (left reader.old)) result (λ rs. Stored (λ x. x) job.old.j64.now 0 rs job.new.j64.now) (ClassesAt job.old.j16.now job.old.j8.now job.new.j16.now job.new.j8.now) (FixedIn fixed.old fixed.new) }
{
    let m = reader.little::<1>()?;
    if 64 <= m {
        return Err(Refusal::UnfitMap);
    }
    let has_regs = bit(m, 0);
    let has_classes = bit(m, 1);
    let has_fixed = bit(m, 2);
    let rn = reg_table(reader, has_regs, job.j64)?;
    let (cn, _) = class_table(reader, has_classes, rn as u8, job.j16, job.j8)?;
    let en = fixed_table(reader, has_fixed, fixed)?;
    let tables = FirstTables {
        map: m as u8,
        regs: rn as u8,
        classes: cn,
        fixed: en as usize,
    };
    Ok(tables)
}

// The budget where its bit stands.
fn budget(reader: &mut Reader<'_>, stands: bool) -> Result<u64, Refusal>
    ensures same { reader.new.bytes ≡ reader.old.bytes }
    ensures read { Field (left reader.old) (left reader.new) stands 4 100000 result }
{
    reader.word_or(stands, 100_000)
}

// The probe range and the budget, and with them what goes by value of the job.
#[tactic(auto, unfolding(crate::specs::Whole::last_of))]
fn last_fields(
    reader: &mut Reader<'_>,
    t: FirstTables,
    vn: u16,
    gn: u64,
) -> Result<(JobHeader, TableSizes), Refusal>
    ensures same { reader.new.bytes ≡ reader.old.bytes }
    ensures read { LastOut (left reader.old) (left reader.new) t vn gn result }
{
    let p = probe_range(reader, bit(t.map as u64, 4))?;
    let b = budget(reader, bit(t.map as u64, 5))?;
    let header = JobHeader {
        regs: t.regs,
        classes: t.classes,
        virt_regs: vn,
        probe: p,
        budget: b as u32,
    };
    let sizes = TableSizes {
        fixed: t.fixed,
        segments: gn as usize,
    };
    Ok((header, sizes))
}

// All fields of a job: what goes by value of it, the sizes of its tables, and the position after it. What it holds is stored in its slices, where
// there is room, and the fixed reservations in four slices of their own.
pub fn job_fields(
    s: &[u8],
    job: &mut LentJobMut<'_>,
    fixed: &mut LentFixed<'_>,
) -> Result<(JobHeader, TableSizes, usize), Refusal>
    ensures same { SameJob job.old job.new × SameFixed fixed.old fixed.new }
    ensures read { JobOut s.now (job_fields s.now) result (JobAt (slices_in job.old) (slices_in job.new) (FixedIn fixed.old fixed.new)) }
{
    let mut reader = Reader { bytes: s, at: 0 };
    let t = first_tables(&mut reader, job, fixed)?;
    let stands = bit(t.map as u64, 3);
    let (vn, totals) = virt_table(&mut reader, stands, t.regs, t.classes, job)?;
    let (header, sizes) = last_fields(&mut reader, t, vn, totals.segments)?;
    Ok((header, sizes, reader.at))
}
