// The zero of each type of number that is lent.
ghost use Rattle.std.specs.Prelude.{◌≡◌};
ghost use Rattle.std.specs.Float.{binary32};
ghost use Rattle.std.specs.Float.Ieee.{of_bits};

// A type of numbers, with its zero. Each impl is its zero alone, so there is nothing left to share. The library's `Default` says by a predicate,
// `is_default`, which values it may give, and the contracts that speak of `get_or` need the value itself.
pub trait Zero: Copy {
    ghost zero: { Self };

    fn zero() -> Self
        ensures { result ≡ zero };
}

impl Zero for u64 {
    ghost zero = { 0 };

    fn zero() -> u64 {
        0
    }
}

impl Zero for u32 {
    ghost zero = { 0 };

    fn zero() -> u32 {
        0
    }
}

impl Zero for u16 {
    ghost zero = { 0 };

    fn zero() -> u16 {
        0
    }
}

impl Zero for u8 {
    ghost zero = { 0 };

    fn zero() -> u8 {
        0
    }
}

impl Zero for f32 {
    ghost zero = { of_bits binary32 0 };

    fn zero() -> f32 {
        0.0
    }
}
