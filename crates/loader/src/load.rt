// Loading a job: from any bytes to what a job holds, in lent numbers, or to one refusal. The job is read twice: first into local
// numbers, so that a refusal leaves what is lent as it was, and then into the lent ones.
ghost use Rattle.std.specs.Prelude.{◌≤◌, length};
ghost use Rattle.table_words.specs.Buffers.{SameTable};
ghost use Rattle.job_parts.specs.Lent.{SameJob};
ghost use Rattle.fixed_reader.specs.Fixed.{FixedIn, SameFixed};
ghost use Rattle.loader.specs.Loading.{tested_job, TestedOut, lent_in, Sized, LoadDone};

use fixed_reader::LentFixed;
use job::{JobHeader, USES};
use job_parts::lent_job::LentJobMut;
use job_stores::buffers::is_short;
use job_stores::reserve::reserve_all;
use job_stores::store::store_job;
use job_tests::tests::whole_refusal;
use reg_matrix::Refusal;
use table_words::buffers::TableMut;
use whole_fields::{TableSizes, job_fields};

// Reads the job into local numbers and tests the whole: what goes by value of it, and the sizes of its tables. The fixed reservations stand in what
// is lent for them then. Of the job's slices there is only as much as the tests ask for.
fn tested(s: &[u8], fixed: &mut LentFixed<'_>) -> Result<(JobHeader, TableSizes), Refusal>
    requires { (512 ≤ length fixed.old.froms.now) × (512 ≤ length fixed.old.tos.now) × (512 ≤ length fixed.old.uses.now) }
    ensures same { SameFixed fixed.old fixed.new }
    ensures tested { TestedOut (tested_job s.now) result (FixedIn fixed.old fixed.new) }
{
    let mut j64 = [0u64; 64];
    let mut j32 = [0u32; 1024];
    let mut j16 = [0u16; 1041];
    let mut j8 = [0u8; 1536];
    let mut jf = [0.0f32; 1];
    let mut job = LentJobMut {
        j64: &mut j64,
        j32: &mut j32,
        j16: &mut j16,
        j8: &mut j8,
        jf: &mut jf,
    };
    let (h, z, at) = job_fields(s, &mut job, fixed)?;
    if at < s.len() {
        return Err(Refusal::Tail);
    }
    whole_refusal(job.as_job(), h, z.segments, fixed.as_list(z.fixed))?;
    Ok((h, z))
}

// Loads the job where the sizes lent and its length are tested already: tests its fields in byte order, and the whole, and stores it.
fn load_sized(
    s: &[u8],
    job: &mut LentJobMut<'_>,
    table: &mut TableMut<'_>,
) -> Result<JobHeader, Refusal>
    requires { Sized s.now (lent_in job.old table.old) }
    ensures same { SameJob job.old job.new × SameTable table.old table.new }
    ensures loaded { LoadDone s.now (lent_in job.old table.old) (lent_in job.new table.new) result }
{
    let mut units = [0u8; 512];
    let mut froms = [0u32; 512];
    let mut tos = [0u32; 512];
    let mut uses = [0u32; 512];
    let mut fixed = LentFixed {
        units: &mut units,
        froms: &mut froms,
        tos: &mut tos,
        uses: &mut uses,
    };
    let (h, z) = tested(s, &mut fixed)?;
    store_job(s, job);
    reserve_all(table, &mut job.j64[USES..], fixed.as_list(z.fixed));
    Ok(h)
}

// Loads the job of these bytes: tests the sizes lent (15), the job's length (4), its fields in byte order, and the whole (2, 10, 11, 12). What is
// lent takes the layout of the job and of its fresh table; a refusal leaves it as it was.
pub fn load(
    s: &[u8],
    job: &mut LentJobMut<'_>,
    table: &mut TableMut<'_>,
) -> Result<JobHeader, Refusal>
    ensures same { SameJob job.old job.new × SameTable table.old table.new }
    ensures loaded { LoadDone s.now (lent_in job.old table.old) (lent_in job.new table.new) result }
{
    if is_short(job.as_job(), table.as_table()) {
        return Err(Refusal::ShortBuffer);
    }
    if 32768 < s.len() {
        return Err(Refusal::OverLimit);
    }
    load_sized(s, job, table)
}
