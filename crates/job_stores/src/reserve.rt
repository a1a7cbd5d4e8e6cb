// The fixed reservations of a job, put into the table one after another.
ghost use Rattle.std.specs.Prelude.{◌≡◌};
ghost use Rattle.table_words.specs.Buffers.{SameTable};
ghost use Rattle.entries.specs.Reserving.{lain, cleared};
ghost use Rattle.job_stores.specs.Storing.{reserving_all};

use entries::reserve::{clear, reserve_fixed};
use fixed_reader::FixedList;
use lent::at;
use table_words::buffers::TableMut;

// The table and its fixed uses with the reservations, and nothing else. By number: each of the four lists may have fewer than `count`.
pub fn reserve_all(table: &mut TableMut<'_>, uses: &mut [u64], fixed: FixedList<'_>)
    ensures same { SameTable table.old table.new }
    ensures after { lain table.new.ends.now table.new.rests.now uses.new ≡ reserving_all fixed.entry.units.now fixed.entry.froms.now fixed.entry.tos.now fixed.entry.uses.now fixed.entry.count (cleared (lain table.old.ends.now table.old.rests.now uses.old)) }
{
    clear(table, uses);
    for i in 0..fixed.count {
        let unit = at(fixed.units, i);
        let from = at(fixed.froms, i);
        let to = at(fixed.tos, i);
        let number = at(fixed.uses, i);
        reserve_fixed(table, uses, unit, from, to, number);
    }
}
