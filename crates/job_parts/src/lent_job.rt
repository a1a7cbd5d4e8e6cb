// What is lent of a job (job/specs/Layout): a slice for each kind of number, which go from call to call together. A list of the job is a part of one
// of them.
use job::JobHeader;

// A job to read.
#[derive(Clone, Copy)]
pub struct LentJob<'a> {
    pub j64: &'a [u64],
    pub j32: &'a [u32],
    pub j16: &'a [u16],
    pub j8: &'a [u8],
    pub jf: &'a [f32],
}

impl LentJob<'_> {
    ghost use Rattle.std.specs.Prelude.{◌≡◌, [], ◌∷◌, length};
    ghost use Rattle.reg_matrix.specs.Refusals.{short_buffer};
    ghost use Rattle.job.specs.Layout.{job_limits};

    // Whether one of its slices is below its limit. They come in the limits' order.
    #[tactic(auto, unfolding(reg_matrix::specs::Refusals::short_buffer))]
    pub fn is_short(self) -> bool
        ensures { result ≡ short_buffer job_limits (length self.entry.j64.now ∷ length self.entry.j32.now ∷ length self.entry.j16.now ∷ length self.entry.j8.now ∷ length self.entry.jf.now ∷ []) }
    {
        self.j64.len() < 576
            || self.j32.len() < 1536
            || self.j16.len() < 2067
            || self.j8.len() < 2560
            || self.jf.len() < 1536
    }
}

// A job to read, once loaded, with its header: how many of everything it has.
#[derive(Clone, Copy)]
pub struct LoadedJob<'a> {
    pub header: JobHeader,
    pub job: LentJob<'a>,
}

// A job to store.
#[derive(Drop)]
pub struct LentJobMut<'a> {
    pub j64: &'a mut [u64],
    pub j32: &'a mut [u32],
    pub j16: &'a mut [u16],
    pub j8: &'a mut [u8],
    pub jf: &'a mut [f32],
}

impl LentJobMut<'_> {
    ghost use Rattle.std.specs.Prelude.{◌≡◌};
    ghost use Rattle.job_parts.specs.Lent.{slices_of, slices_in};

    // The job to read.
    pub fn as_job(&self) -> LentJob<'_>
        ensures { slices_of result ≡ slices_in self.now }
    {
        LentJob {
            j64: self.j64,
            j32: self.j32,
            j16: self.j16,
            j8: self.j8,
            jf: self.jf,
        }
    }
}
