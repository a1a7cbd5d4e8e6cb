// The lent slices of a job: whether one is below its limit, and zeros up to the limits (specs/Layout.antt of the job).
ghost use Rattle.std.specs.Prelude.{◌≡◌, [], ◌∷◌, length};
ghost use Rattle.reg_matrix.specs.Refusals.{short_buffer};
ghost use Rattle.job.specs.Layout.{load_limits};
ghost use Rattle.job_parts.specs.Lent.{slices_in, SameJob};
ghost use Rattle.job_stores.specs.Storing.{cleared};

use job_parts::lent_job::{LentJob, LentJobMut};
use lent::clear;
use table_words::buffers::Table;

// Whether one of the sizes lent is below its limit. They come in the limits' order: the job's five and the table's two.
#[tactic(auto, unfolding(reg_matrix::specs::Refusals::short_buffer))]
pub fn sizes_short(
    j64: usize,
    j32: usize,
    j16: usize,
    j8: usize,
    jf: usize,
    ends: usize,
    rests: usize,
) -> bool
    ensures { result ≡ short_buffer load_limits (j64 ∷ j32 ∷ j16 ∷ j8 ∷ jf ∷ ends ∷ rests ∷ []) }
{
    j64 < 576 || j32 < 1536 || j16 < 2067 || j8 < 2560 || jf < 1536 || ends < 2560 || rests < 2560
}

// Whether a slice of the job or of the table is below its limit.
pub fn is_short(job: LentJob<'_>, table: Table<'_>) -> bool
    ensures { result ≡ short_buffer load_limits (length job.entry.j64.now ∷ length job.entry.j32.now ∷ length job.entry.j16.now ∷ length job.entry.j8.now ∷ length job.entry.jf.now ∷ length table.entry.ends.now ∷ length table.entry.rests.now ∷ []) }
{
    sizes_short(
        job.j64.len(),
        job.j32.len(),
        job.j16.len(),
        job.j8.len(),
        job.jf.len(),
        table.ends.len(),
        table.rests.len(),
    )
}

// Zeros where a job is laid out, but for its fixed uses.
pub fn clear_job(job: &mut LentJobMut<'_>)
    ensures same { SameJob job.old job.new }
    ensures after { slices_in job.new ≡ cleared (slices_in job.old) }
{
    clear(job.j64, 64);
    clear(job.j32, 1536);
    clear(job.j16, 2067);
    clear(job.j8, 2560);
    clear(job.jf, 1536);
}
