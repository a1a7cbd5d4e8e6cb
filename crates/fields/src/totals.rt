// How much the virtual registers of a job have.
ghost use Rattle.std.specs.Prelude.{◌≡◌, ◌≤◌};

// How many hints and segments the virtual registers read so far have: at most as many as a job may.
#[derive(Clone, Copy)]
pub struct Totals {
    pub hints: u64,
    pub segments: u64,
    pub ghost hints_fit: { hints ≤ 1024 },
    pub ghost segments_fit: { segments ≤ 512 },
}

impl Totals {
    // Before the first virtual register.
    pub(crate) fn none() -> Totals
        ensures { (result.hints ≡ 0) × (result.segments ≡ 0) }
    {
        Totals {
            hints: 0,
            segments: 0,
        }
    }
}
