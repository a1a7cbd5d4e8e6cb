// A list of segments to read, whichever way it is lent: as three lists of numbers, or as structs.
ghost use Rattle.std.specs.Prelude.{ℕ, List, ◌≡◌, length, ◌||◌, ltb};
ghost use Rattle.table_words.specs.Segments.{segment_at, froms_of, tos_of, values_of};

use lent::at;
use reg_matrix::ValueSegment;

// Segments: what each starts at, where it ends, and its value. There are as many as starts; what is read past an end is 0. They are walked by number:
// a `zip` would end with the shortest list.
pub trait SegmentList: Copy {
    ghost froms: { Self → List ℕ };

    ghost tos: { Self → List ℕ };

    ghost values: { Self → List ℕ };

    // How many there are.
    fn count(self) -> usize
        ensures { result ≡ length (froms self) };

    // Whether there are fewer ends or values than starts.
    fn is_short(self) -> bool
        ensures { result ≡ (ltb (length (tos self)) (length (froms self)) || ltb (length (values self)) (length (froms self))) };

    // Whether there are fewer ends than starts: placing and evicting read no values.
    fn lacks_ends(self) -> bool
        ensures { result ≡ ltb (length (tos self)) (length (froms self)) };

    // How many ends there are: one line of another list than `count`.
    fn end_count(self) -> usize
        ensures { result ≡ length (tos self) };

    // The segment number n.
    fn segment(self, n: usize) -> ValueSegment
        ensures { result ≡ segment_at (froms self) (tos self) (values self) n };
}

// Segments as three lists of numbers, as a job has them.
#[derive(Clone, Copy)]
pub struct Segments<'a> {
    pub froms: &'a [u32],
    pub tos: &'a [u32],
    pub values: &'a [u16],
}

impl<'a> SegmentList for Segments<'a> {
    ghost froms = { λ s. s.froms.now };

    ghost tos = { λ s. s.tos.now };

    ghost values = { λ s. s.values.now };

    fn count(self) -> usize {
        self.froms.len()
    }

    fn is_short(self) -> bool {
        self.lacks_ends() || self.values.len() < self.froms.len()
    }

    fn lacks_ends(self) -> bool {
        self.end_count() < self.count()
    }

    fn end_count(self) -> usize {
        self.tos.len()
    }

    fn segment(self, n: usize) -> ValueSegment {
        ValueSegment {
            from: at(self.froms, n),
            to: at(self.tos, n),
            value: at(self.values, n),
        }
    }
}

impl<'a> SegmentList for &'a [ValueSegment] {
    ghost froms = { λ s. froms_of s.now };

    ghost tos = { λ s. tos_of s.now };

    ghost values = { λ s. values_of s.now };

    fn count(self) -> usize {
        self.len()
    }

    fn is_short(self) -> bool {
        false
    }

    fn lacks_ends(self) -> bool {
        self.is_short()
    }

    fn end_count(self) -> usize {
        self.count()
    }

    fn segment(self, n: usize) -> ValueSegment {
        self.get(n).copied().unwrap_or_default()
    }
}
