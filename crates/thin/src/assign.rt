// Placing and evicting over segment structs. One function over both would be no plainer: each promises what the function that it calls does.
ghost use Rattle.std.specs.Prelude.{ltb, length};
ghost use Rattle.entries.specs.Moves.{words_of};
ghost use Rattle.table_words.specs.Buffers.{SameTable};
ghost use Rattle.table_words.specs.Segments.{froms_of, tos_of};
ghost use Rattle.thin.specs.Answers.{max_segments, AssignAnswer, EvictAnswer};

use crate::is_long;
use placing::assign::LiveRange;
use reg_matrix::{Refusal, ValueSegment};
use table_words::buffers::TableMut;

// Places v on the units of a register: on each unit every segment replaces the fixed uses inside it by one entry, whose index is
// the first fixed use of the unit not starting before the segment, or no index if it replaced none. The segments' values do not matter
// here. Refused with 15 or 8, in this order, and then nothing is changed. More than 512 segments are refused with 15.
pub fn assign(
    range: LiveRange<&[ValueSegment]>,
    table: &mut TableMut<'_>,
    uses: &[u64],
) -> Result<(), Refusal>
    ensures same { SameTable table.old table.new }
    ensures answer { AssignAnswer (ltb max_segments (length range.entry.segments.now)) range.entry.v range.entry.units uses.now (froms_of range.entry.segments.now) (tos_of range.entry.segments.now) (words_of table.old) (words_of table.new) result }
{
    if is_long(range.segments) {
        return Err(Refusal::ShortBuffer);
    }
    range.assign(table, uses)
}

// Evicts v from the units of a register: on each unit the entry of v that ends with a segment goes, and the fixed uses that it
// replaced come back. Refused with 15 or 8, in this order, and then nothing is changed. More than 512 segments are refused with 15.
pub fn evict(
    range: LiveRange<&[ValueSegment]>,
    table: &mut TableMut<'_>,
    uses: &[u64],
) -> Result<(), Refusal>
    ensures same { SameTable table.old table.new }
    ensures answer { EvictAnswer (ltb max_segments (length range.entry.segments.now)) range.entry.v range.entry.units uses.now (tos_of range.entry.segments.now) (words_of table.old) (words_of table.new) result }
{
    if is_long(range.segments) {
        return Err(Refusal::ShortBuffer);
    }
    range.evict(table, uses)
}
