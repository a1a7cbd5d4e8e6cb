// Buffers of the sizes that a job and a stage's state have at most, for a program of its own (firmware lends its own).
ghost use Rattle.std.specs.Prelude.{◌≡◌, length, replicate};
ghost use Rattle.std.specs.Float.{binary32};
ghost use Rattle.std.specs.Float.Ieee.{of_bits};

use job_parts::lent_job::LentJobMut;
use table_words::buffers::LentState;

// A job's five, the state's three, and the registers last given.
#[derive(Drop)]
pub struct StageBuffers {
    pub j64: [u64; 576],
    pub j32: [u32; 1536],
    pub j16: [u16; 2067],
    pub j8: [u8; 2560],
    pub jf: [f32; 1536],
    pub ends: [u64; 2560],
    pub rests: [u64; 2560],
    pub queue: [u64; 1024],
    pub last: [u8; 512],
}

impl StageBuffers {
    // Buffers that nothing was loaded into: zeros.
    pub fn new() -> StageBuffers
        ensures job { (result.j64 ≡ replicate 576 0) × (result.j32 ≡ replicate 1536 0) × (result.j16 ≡ replicate 2067 0) × (result.j8 ≡ replicate 2560 0) × (result.jf ≡ replicate 1536 (of_bits binary32 0)) }
        ensures state { (result.ends ≡ replicate 2560 0) × (result.rests ≡ replicate 2560 0) × (result.queue ≡ replicate 1024 0) × (result.last ≡ replicate 512 0) }
    {
        StageBuffers {
            j64: [0u64; 576],
            j32: [0u32; 1536],
            j16: [0u16; 2067],
            j8: [0u8; 2560],
            jf: [0.0f32; 1536],
            ends: [0u64; 2560],
            rests: [0u64; 2560],
            queue: [0u64; 1024],
            last: [0u8; 512],
        }
    }

    // Lends them: a job to store, a state to change, and the registers last given.
    pub fn lend(&mut self) -> (LentJobMut<'_>, LentState<'_>, &mut [u8])
        ensures job { (result.0.j64.now ≡ self.old.j64) × (result.0.j32.now ≡ self.old.j32) × (result.0.j16.now ≡ self.old.j16) × (result.0.j8.now ≡ self.old.j8) × (result.0.jf.now ≡ self.old.jf) }
        ensures state { (result.1.ends.now ≡ self.old.ends) × (result.1.rests.now ≡ self.old.rests) × (result.1.queue.now ≡ self.old.queue) × (result.2.now ≡ self.old.last) }
        ensures job_sizes { (length result.0.j64.now ≡ 576) × (length result.0.j32.now ≡ 1536) × (length result.0.j16.now ≡ 2067) × (length result.0.j8.now ≡ 2560) × (length result.0.jf.now ≡ 1536) }
        ensures state_sizes { (length result.1.ends.now ≡ 2560) × (length result.1.rests.now ≡ 2560) × (length result.1.queue.now ≡ 1024) × (length result.2.now ≡ 512) }
    {
        let StageBuffers {
            j64,
            j32,
            j16,
            j8,
            jf,
            ends,
            rests,
            queue,
            last,
        } = self;
        let job = LentJobMut {
            j64,
            j32,
            j16,
            j8,
            jf,
        };
        let state = LentState { ends, rests, queue };
        (job, state, last)
    }
}
