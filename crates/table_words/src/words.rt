// An entry as two 64-bit numbers, and a fixed use as one (specs/Layout.antt). Functions and no `From`: a `u64` has no one meaning, and these are the
// formats of two kinds of words, which C lends in fixed memory.
ghost use Rattle.std.specs.Prelude.{◌≡◌, ◌^◌, ◌<◌};
ghost use Rattle.reg_matrix.specs.Layout.{entry_of, reservation_of, use_of};

use reg_matrix::{Entry, Reservation};

// What an entry's low 32 bits say that it is for.
#[tactic(auto, unfolding(reg_matrix::specs::Layout::reservation_of))]
fn reservation_of(w: u64) -> Reservation
    requires { w < 2 ^ 32 }
    ensures { result ≡ reservation_of w }
{
    if w == 0 {
        return Reservation::FixedDef;
    }
    if w < 0x2_0000 {
        return Reservation::FixedUse(((w - 1) % 0x1_0000) as u16);
    }
    let v = (w / 0x1_0000 - 2) as u16;
    let i = w % 0x1_0000;
    if i == 0 {
        Reservation::Held(v, None)
    } else {
        Reservation::Held(v, Some((i - 1) as u16))
    }
}

// The entry that two numbers stand for.
#[tactic(auto, unfolding(reg_matrix::specs::Layout::entry_of))]
pub fn entry_of(end: u64, rest: u64) -> Entry
    ensures { result ≡ entry_of end rest }
{
    Entry {
        unit: (end / 0x1_0000_0000 % 256) as u8,
        from: (rest / 0x1_0000_0000) as u32,
        to: (end % 0x1_0000_0000) as u32,
        reservation: reservation_of(rest % 0x1_0000_0000),
    }
}

// The fixed use that a number stands for.
#[tactic(auto, unfolding(reg_matrix::specs::Layout::use_of))]
pub fn use_of(w: u64) -> Entry
    ensures { result ≡ use_of w }
{
    let from = w / 0x1_0000 % 0x1_0000_0000;
    Entry {
        unit: (w / 0x1_0000_0000_0000 % 256) as u8,
        from: from as u32,
        to: ((from + 2) % 0x1_0000_0000) as u32,
        reservation: Reservation::FixedUse((w % 0x1_0000) as u16),
    }
}
