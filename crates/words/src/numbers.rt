// Numbers that stand for what other crates pass by value, since C reads and passes these: a place in the sheet, how a virtual register stands.
ghost use Rattle.std.specs.Prelude.{◌≡◌};
ghost use Rattle.words.specs.Words.{place_in, place_number, standing_number};

use allocator::Assignment;
use listing::Place;

// The place in the sheet that a position stands for: 0 is the head, 1 + v the virtual register v, 65,537 + i the entry i, and 2^64 - 1 the end.
#[tactic(auto, unfolding(crate::specs::Words::place_in))]
pub fn place_of(n: u64) -> Place
    ensures { result ≡ place_in n }
{
    match n {
        0 => Place::Head,
        1..=65536 => Place::VirtReg((n - 1) as u16),
        u64::MAX => Place::End,
        _ => Place::Entry((n - 65537) as usize),
    }
}

// The position that stands for a place; an entry behind the last place of the table has none of its own, and is at the end.
pub fn place_number(place: Place) -> u64
    ensures { result ≡ place_number place }
{
    match place {
        Place::Head => 0,
        Place::VirtReg(v) => 1 + v as u64,
        Place::Entry(i) if i <= 2560 => 65537 + i as u64,
        Place::Entry(_) | Place::End => u64::MAX,
    }
}

// How a record stands: 0 waits, 1 left over, 256 + r held in the register r.
pub fn standing_number(a: Assignment) -> u64
    ensures { result ≡ standing_number a }
{
    match a {
        Assignment::Assigned { reg, .. } => 256 + reg as u64,
        Assignment::Unassigned { .. } => 0,
        Assignment::Dead => 1,
    }
}
