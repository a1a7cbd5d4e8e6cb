// Placing and evicting a virtual register in the table's lent numbers: every segment on every unit of a register. Segments go by number, as
// `SegmentList` says.
ghost use Rattle.std.specs.Prelude.{◌≡◌, ◌<◌, []};
ghost use Rattle.reg_matrix.specs.Refusals.{short_buffer};
ghost use Rattle.table_words.specs.Buffers.{SameTable};
ghost use Rattle.entries.specs.Moves.{words_in, words_of};
ghost use Rattle.entries.specs.Placing.{assigning_unit, assigning, evicting_unit, evicting, move_limits, sizes, Assigned, Evicted};

use reg_matrix::Refusal;
use segment_moves::{assign_segment, evict_segment};
use table_words::buffers::{RegMatrix, Table, TableMut};
use table_words::segments::SegmentList;

// The segments of the virtual register v, and the map of the units that they are placed on or leave.
#[derive(Clone, Copy)]
pub struct LiveRange<S> {
    pub v: u16,
    pub units: u64,
    pub segments: S,
}

// Whether the table or the fixed uses are short: what is tested for no segments.
#[tactic(auto, unfolding(reg_matrix::specs::Refusals::short_buffer))]
fn is_short(table: Table<'_>, uses: &[u64]) -> bool
    ensures { result ≡ short_buffer (move_limits 0) (sizes (words_in table.entry) uses.now []) }
{
    RegMatrix { table, uses }.is_short()
}

impl<S: SegmentList> LiveRange<S> {
    // All segments on one unit.
    fn assign_unit(self, table: &mut TableMut<'_>, uses: &[u64], unit: u8)
        requires { self.v < 512 }
        ensures same { SameTable table.old table.new }
        ensures after { words_of table.new ≡ assigning_unit uses.now self.v unit (S.froms self.segments) (S.tos self.segments) (words_of table.old) }
    {
        for i in 0..self.segments.count() {
            let segment = self.segments.segment(i);
            assign_segment(table, uses, self.v, unit, segment.from, segment.to);
        }
    }

    // All segments on all units of the map.
    fn assign_units(self, table: &mut TableMut<'_>, uses: &[u64])
        requires { self.v < 512 }
        ensures same { SameTable table.old table.new }
        ensures after { words_of table.new ≡ assigning uses.now self.v self.units (S.froms self.segments) (S.tos self.segments) (words_of table.old) }
    {
        let mut left = self.units;
        // 01 names this form: from a map's lowest bit on
        while 0 < left {
            let unit = left.trailing_zeros() as u8;
            self.assign_unit(table, uses, unit);
            left &= left - 1;
        }
    }

    // All segments on one unit.
    fn evict_unit(self, table: &mut TableMut<'_>, uses: &[u64], unit: u8)
        ensures same { SameTable table.old table.new }
        ensures after { words_of table.new ≡ evicting_unit uses.now self.v unit (S.tos self.segments) (words_of table.old) }
    {
        for i in 0..self.segments.end_count() {
            let segment = self.segments.segment(i);
            evict_segment(table, uses, self.v, unit, segment.to);
        }
    }

    // All segments on all units of the map. Beside `assign_units` it calls another function for each unit; one over a closure would be no plainer, as
    // its contract would have to say what both promise.
    fn evict_units(self, table: &mut TableMut<'_>, uses: &[u64])
        ensures same { SameTable table.old table.new }
        ensures after { words_of table.new ≡ evicting uses.now self.v self.units (S.tos self.segments) (words_of table.old) }
    {
        let mut left = self.units;
        // 01 names this form: from a map's lowest bit on
        while 0 < left {
            let unit = left.trailing_zeros() as u8;
            self.evict_unit(table, uses, unit);
            left &= left - 1;
        }
    }

    // Places v on the units of a register: on each unit every segment replaces the fixed uses inside it by one entry, whose index is the first fixed
    // use of the unit not starting before the segment, or no index if it replaced none. The segments' values do not matter here. Refused with 15 or
    // 8, in this order, and then nothing is changed.
    #[tactic(auto, unfolding(entries::specs::Placing::move_refusal, reg_matrix::specs::Refusals::refusal, reg_matrix::specs::Refusals::short_buffer))]
    pub fn assign(self, table: &mut TableMut<'_>, uses: &[u64]) -> Result<(), Refusal>
        ensures same { SameTable table.old table.new }
        ensures after { Assigned self.v self.units uses.now (S.froms self.segments) (S.tos self.segments) (words_of table.old) (words_of table.new) result }
    {
        if is_short(table.as_table(), uses) || self.segments.lacks_ends() {
            return Err(Refusal::ShortBuffer);
        }
        if 512 <= self.v {
            return Err(Refusal::UnknownNumber);
        }
        self.assign_units(table, uses);
        Ok(())
    }

    // Evicts v from the units of a register: on each unit the entry of v that ends with a segment goes, and the fixed uses that it replaced come
    // back. Of the segments only the ends are read. Refused with 15 or 8, in this order, and then nothing is changed.
    #[tactic(auto, unfolding(entries::specs::Placing::move_refusal, reg_matrix::specs::Refusals::refusal, reg_matrix::specs::Refusals::short_buffer))]
    pub fn evict(self, table: &mut TableMut<'_>, uses: &[u64]) -> Result<(), Refusal>
        ensures same { SameTable table.old table.new }
        ensures after { Evicted self.v self.units uses.now (S.tos self.segments) (words_of table.old) (words_of table.new) result }
    {
        if is_short(table.as_table(), uses) {
            return Err(Refusal::ShortBuffer);
        }
        if 512 <= self.v {
            return Err(Refusal::UnknownNumber);
        }
        self.evict_units(table, uses);
        Ok(()) // evicted
    }
}
