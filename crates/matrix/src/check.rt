// The check of a register against the table: a position by value, from which each step answers one report and the next position
// (specs/Walk.antt). It asks nothing of what is lent.
ghost use Rattle.std.specs.Prelude.{◌≡◌, ◌<◌, length, get_or, take, [], ◌∷◌};
ghost use Rattle.reg_matrix.specs.Questions.{check_refusal};
ghost use Rattle.reg_matrix.specs.Refused.{numbered, or_refused};
ghost use Rattle.table_words.specs.Segments.{segments_in};
ghost use Rattle.matrix.specs.Walk.{Answered, lent_in, later_units, entered, leave_unit, step_of};

use crate::meeting::Meeting;
use crate::{Cursor, Move};
use lent::at;
use reg_matrix::{Interference, Refusal};
use table_words::buffers::RegMatrix;
use table_words::ranges::{short_buffers, start_refusal};
use table_words::search::first_past;
use table_words::segments::SegmentList;
use table_words::words::entry_of;

fn later_units(units: u64) -> u64
    requires { 0 < units }
    ensures { result ≡ later_units units }
{
    units & (units - 1)
}

// The position at the lowest unit of a map: its first entry that ends past the first segment's start.
#[tactic(auto, unfolding(crate::specs::Walk::entered))]
pub fn enter<S: SegmentList>(ends: &[u64], segments: S, units: u64, full: bool) -> Cursor
    ensures { result ≡ entered ends.now (S.froms segments) units full }
{
    let unit = units.trailing_zeros() as u8;
    let from = segments.segment(0).from;
    Cursor {
        units,
        segment: 0,
        entry: first_past(ends, unit, from),
        inner: None,
        full,
    }
}

impl Cursor {
    // To the next unit of the map, or to the walk's end.
    #[tactic(auto, unfolding(crate::specs::Walk::leave_unit))]
    fn leave_unit<S: SegmentList>(self, ends: &[u64], segments: S) -> Move
        requires { 0 < self.units }
        ensures { result ≡ leave_unit ends.now (S.froms segments) self }
    {
        let rest = later_units(self.units);
        if rest == 0 {
            Move::Ends
        } else {
            Move::Goes(enter(ends, segments, rest, self.full))
        }
    }

    // One step: at an entry of the current unit and a segment, or else to the next unit.
    #[tactic(auto, unfolding(crate::specs::Walk::step_of, crate::specs::Walk::unit_step, crate::specs::Walk::meeting_step))]
    fn step<S: SegmentList>(self, matrix: RegMatrix<'_>, segments: S) -> Move
        ensures { result ≡ step_of (lent_in matrix.entry (S.froms segments) (S.tos segments) (S.values segments)) self }
    {
        let n = self.segment;
        let i = self.entry;
        let table = matrix.table;
        if self.units == 0 {
            return Move::Ends;
        }
        if segments.count() <= n || 2560 <= i {
            return self.leave_unit(table.ends, segments);
        }
        let entry = entry_of(at(table.ends, i), at(table.rests, i));
        if entry.unit as u32 != self.units.trailing_zeros() {
            return self.leave_unit(table.ends, segments);
        }
        let meeting = Meeting {
            cursor: self,
            entry,
            segment: segments.segment(n),
        };
        match self.inner {
            None => meeting.entry_step(matrix.uses),
            Some(place) => meeting.use_step(matrix.uses, place),
        }
    }

    // The next report from this position on, with the position after it, or the check's end. It asks nothing of what is lent: past the
    // end of a slice it reads 0. A struct of the matrix and the segments would be no plainer: one matrix serves all checks of a search or a
    // script, the segments are those of one virtual register, and each check would make such a struct of them.
    pub fn next<S: SegmentList>(
        self,
        matrix: RegMatrix<'_>,
        segments: S,
    ) -> Option<(Interference, Cursor)>
        ensures { Answered (lent_in matrix.entry (S.froms segments) (S.tos segments) (S.values segments)) self result }
    {
        let mut c = self;
        // a `for` is no plainer: the position goes on by entries, segments, uses and units
        loop {
            match c.step(matrix, segments) {
                Move::Meets(report, d) => return Some((report, d)),
                Move::Ends => return None,
                Move::Goes(d) => c = d,
            }
        }
    }
}

// Which register a check asks about, and how: the one numbered `reg` among the first `count` of the registers' maps of units, in the full or
// the short form.
#[derive(Clone, Copy)]
pub struct InterferenceQuery<'a> {
    pub regs: &'a [u64],
    pub count: usize,
    pub reg: usize,
    pub full: bool,
}

// Starts a check of a register against these segments. It tests 15, 8, 5, 6, 7 in this order, and gives the refusal or the position at the
// start.
pub fn check_interference<S: SegmentList>(
    query: InterferenceQuery<'_>,
    matrix: RegMatrix<'_>,
    segments: S,
) -> Result<Cursor, Refusal>
    ensures { numbered result ≡ or_refused (check_refusal (length query.entry.regs.now ∷ length matrix.entry.uses.now ∷ length matrix.entry.table.ends.now ∷ length matrix.entry.table.rests.now ∷ length (S.froms segments) ∷ length (S.tos segments) ∷ length (S.values segments) ∷ []) (take query.entry.count query.entry.regs.now) query.entry.reg (segments_in (S.froms segments) (S.tos segments) (S.values segments))) (entered matrix.entry.table.ends.now (S.froms segments) (get_or query.entry.regs.now query.entry.reg 0) query.entry.full) }
{
    let short = short_buffers(query.regs, matrix, segments);
    start_refusal(short, query.regs.len(), query.count, query.reg, segments)?;
    let units = at(query.regs, query.reg);
    Ok(enter(matrix.table.ends, segments, units, query.full))
}
