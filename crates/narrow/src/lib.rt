// Wide numbers cut to the greatest of a narrower type, which no job knows: no virtual register has the number 65,535 and no register 255, and no
// weight that is a number has the bits 0xFFFFFFFF.
#![tactic(auto)]

ghost use Rattle.std.specs.Prelude.{◌≡◌, ℕ};
ghost use Rattle.narrow.specs.Cut.{cut};

// A type of numbers that are narrower than 64 bits. Each impl is one line on its own type's conversion and greatest number.
pub trait Narrow {
    ghost greatest: { ℕ };

    ghost number: { Self → ℕ };

    // The number, or the greatest of the type where it does not fit.
    fn cut(n: u64) -> Self
        ensures { number result ≡ cut greatest n };
}

impl Narrow for u8 {
    ghost greatest = { 0xFF };

    ghost number = { λ n. n };

    #[tactic(auto, unfolding(crate::specs::Cut::cut))]
    fn cut(n: u64) -> u8 {
        u8::try_from(n).unwrap_or(u8::MAX)
    }
}

impl Narrow for u16 {
    ghost greatest = { 0xFFFF };

    ghost number = { λ n. n };

    #[tactic(auto, unfolding(crate::specs::Cut::cut))]
    fn cut(n: u64) -> u16 {
        u16::try_from(n).unwrap_or(u16::MAX)
    }
}

impl Narrow for u32 {
    ghost greatest = { 0xFFFF_FFFF };

    ghost number = { λ n. n };

    #[tactic(auto, unfolding(crate::specs::Cut::cut))]
    fn cut(n: u64) -> u32 {
        u32::try_from(n).unwrap_or(u32::MAX)
    }
}
