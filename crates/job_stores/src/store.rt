// The lists of a job, stored.
ghost use Rattle.job_parts.specs.Lent.{slices_in, SameJob};
ghost use Rattle.job_stores.specs.Storing.{Stores};

use crate::buffers::clear_job;
use fixed_reader::LentFixed;
use job_parts::lent_job::LentJobMut;
use whole_fields::job_fields;

// Reads a job into the lent numbers, where zeros stand behind each of its lists. The fixed reservations go elsewhere. Where the bytes are no job's,
// what is lent is left with what was read of them.
pub fn store_job(s: &[u8], job: &mut LentJobMut<'_>)
    ensures same { SameJob job.old job.new }
    ensures after { Stores s.now (slices_in job.old) (slices_in job.new) }
{
    let mut units = [0u8; 1];
    let mut froms = [0u32; 1];
    let mut tos = [0u32; 1];
    let mut uses = [0u32; 1];
    let mut fixed = LentFixed {
        units: &mut units,
        froms: &mut froms,
        tos: &mut tos,
        uses: &mut uses,
    };
    clear_job(job);
    let _ = job_fields(s, job, &mut fixed);
}
