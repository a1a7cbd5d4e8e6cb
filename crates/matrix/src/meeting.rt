// What a check finds where a segment meets an entry of the current unit, or a fixed use under it (specs/Walk.antt).
ghost use Rattle.std.specs.Prelude.{◌≡◌, ◌≤◌, ◌<◌, ◌%◌, ◌^◌};

use crate::{Cursor, Move};
use lent::at;
use reg_matrix::{Entry, Interference, InterferenceKind, Reservation, ValueSegment};
use table_words::search::first_use;
use table_words::words::use_of;

// A position with the entry and the segment there: neither is past the last number, so the walk goes on behind either.
#[derive(Clone, Copy)]
pub struct Meeting {
    pub cursor: Cursor,
    pub entry: Entry,
    pub segment: ValueSegment,
    ghost entry_goes_on: { cursor.entry < 2560 },
    ghost segment_goes_on: { cursor.segment < 18446744073709551615 },
}

impl Cursor {
    ghost use Rattle.matrix.specs.Walk.{next_entry, next_segment, next_use, under_entry};

    // The two steps differ in the field that goes up; one function for both would be no plainer.
    fn next_entry(self) -> Cursor
        requires { self.entry < 2560 }
        ensures { result ≡ next_entry self }
    {
        Cursor {
            entry: self.entry + 1,
            inner: None,
            ..self
        }
    }

    fn next_segment(self) -> Cursor
        requires { self.segment < 18446744073709551615 }
        ensures { result ≡ next_segment self }
    {
        Cursor {
            segment: self.segment + 1,
            inner: None,
            ..self
        }
    }

    // Past the fixed use at this place.
    fn next_use(self, place: usize) -> Cursor
        requires { place < 512 }
        ensures { result ≡ next_use self place }
    {
        Cursor {
            inner: Some(place + 1),
            ..self
        }
    }

    // At a fixed use of the entry's unit, by its number there.
    #[tactic(auto, unfolding(crate::specs::Walk::under_entry))]
    fn under_entry(self, uses: &[u64], unit: u8, i: u16) -> Cursor
        ensures { result ≡ under_entry uses.now self unit i }
    {
        Cursor {
            inner: Some(first_use(uses, unit) + i as usize),
            ..self
        }
    }
}

impl Meeting {
    ghost use Rattle.reg_matrix.specs.Check.{shared_part, whole_use};
    ghost use Rattle.reg_matrix.specs.Layout.{use_of};
    ghost use Rattle.matrix.specs.Walk.{onward, meeting, entry_step, use_meeting, use_step};

    // What the segment and the entry share.
    fn shared_part(self, k: InterferenceKind) -> Interference
        ensures { result ≡ shared_part self.cursor.segment self.segment self.entry k }
    {
        Interference {
            unit: self.entry.unit,
            segment: self.cursor.segment,
            from: self.entry.from.max(self.segment.from),
            to: self.entry.to.min(self.segment.to),
            kind: k,
        }
    }

    // A fixed use, as it is reported on the segment.
    fn whole_use(self, f: Entry) -> Interference
        ensures { result ≡ whole_use self.cursor.segment f }
    {
        Interference {
            unit: f.unit,
            segment: self.cursor.segment,
            from: f.from,
            to: f.to,
            kind: InterferenceKind::Fixed,
        }
    }

    // Where the walk goes on after an overlap: an entry that stays and ends past the segment may meet the next segment too.
    #[tactic(auto, unfolding(crate::specs::Walk::onward))]
    fn onward(self, stays: bool) -> Cursor
        ensures { result ≡ onward stays self.cursor self.entry self.segment }
    {
        if stays && self.segment.to < self.entry.to {
            self.cursor.next_segment()
        } else {
            self.cursor.next_entry()
        }
    }

    // The segment and the entry overlap: the report, unless it is a fixed use of the segment's own value.
    #[tactic(auto, unfolding(crate::specs::Walk::meeting))]
    fn meeting(self, uses: &[u64]) -> Move
        ensures { result ≡ meeting uses.now self.cursor self.entry self.segment self.entry.reservation }
    {
        let next = self.onward(self.cursor.full);
        match self.entry.reservation {
            Reservation::FixedDef => Move::Meets(self.shared_part(InterferenceKind::Fixed), next),
            Reservation::FixedUse(x) => {
                if x == self.segment.value {
                    Move::Goes(next)
                } else {
                    Move::Meets(self.shared_part(InterferenceKind::Fixed), next)
                }
            }
            Reservation::Held(v, index) => {
                let part = self.shared_part(InterferenceKind::VirtReg(v));
                match index {
                    None => Move::Meets(part, next),
                    Some(i) => Move::Meets(part, self.cursor.under_entry(uses, self.entry.unit, i)),
                }
            }
        }
    }

    // One step at the entry itself.
    #[tactic(auto, unfolding(crate::specs::Walk::entry_step))]
    pub(crate) fn entry_step(self, uses: &[u64]) -> Move
        ensures { result ≡ entry_step uses.now self.cursor self.entry self.segment }
    {
        if self.entry.to <= self.segment.from {
            return Move::Goes(self.cursor.next_entry());
        }
        if self.segment.to <= self.entry.from {
            return Move::Goes(self.cursor.next_segment());
        }
        self.meeting(uses)
    }

    // The fixed use of this number, under a held entry, is reported whole, even past the entry's end, unless it has the segment's own value.
    #[tactic(auto, unfolding(crate::specs::Walk::use_meeting))]
    fn use_meeting(self, place: usize, number: u64) -> Move
        requires { place < 512 }
        ensures { result ≡ use_meeting self.cursor place self.entry self.segment (use_of number) (number % 2 ^ 16) }
    {
        let f = use_of(number);
        if f.unit != self.entry.unit {
            return Move::Goes(self.onward(true));
        }
        if self.segment.to <= f.from {
            return Move::Goes(self.onward(true));
        }
        if f.to <= self.segment.from {
            return Move::Goes(self.cursor.next_use(place));
        }
        if (number % 0x1_0000) as u16 == self.segment.value {
            return Move::Goes(self.cursor.next_use(place));
        }
        Move::Meets(self.whole_use(f), self.cursor.next_use(place))
    }

    // One step at the next fixed use under the entry, which stands at this place.
    #[tactic(auto, unfolding(crate::specs::Walk::use_step))]
    pub(crate) fn use_step(self, uses: &[u64], place: usize) -> Move
        ensures { result ≡ use_step uses.now self.cursor place self.entry self.segment }
    {
        if 512 <= place {
            return Move::Goes(self.onward(true));
        }
        self.use_meeting(place, at(uses, place))
    }
}
