// Placing and evicting one segment on one unit, in the table's lent numbers. The crate placing does it for all segments of a virtual register on all
// units of a register.
#![tactic(auto)]

ghost use Rattle.std.specs.Prelude.{◌≡◌, ◌+◌, ◌-◌, ◌*◌, ◌%◌, ◌≤◌, ◌^◌};
ghost use Rattle.reg_matrix.specs.Layout.{max_fixed};
ghost use Rattle.table_words.specs.Search.{place_of};
ghost use Rattle.table_words.specs.Buffers.{SameTable};
ghost use Rattle.entries.specs.Moves.{words_in, words_of};
ghost use Rattle.entries.specs.Placing.{use_key, uses_before, index_part, held_word, assigning_segment};
ghost use Rattle.entries.specs.Placing.{is_own, inserting_uses, first_under, evicting_segment};

use entries::table::{insert, insert_use, remove, remove_run};
use lent::at;
use table_words::buffers::{Table, TableMut};
use table_words::search::{find, first_past, first_use, search};

// The place of the first fixed use that does not start before p on this unit.
fn use_place(uses: &[u64], unit: u8, p: u32) -> usize
    ensures value { result ≡ place_of max_fixed uses.now (use_key unit p) }
    ensures upper_bound { result ≤ 512 }
{
    search(
        uses,
        512,
        unit as u64 * 0x1_0000_0000_0000 + p as u64 * 0x1_0000,
    )
}

// The same place among the unit's fixed uses.
#[tactic(auto, unfolding(entries::specs::Placing::uses_before))]
fn uses_before(uses: &[u64], unit: u8, p: u32) -> usize
    ensures value { result ≡ uses_before uses.now unit p }
    ensures upper_bound { result ≤ 512 }
{
    let past = use_place(uses, unit, p);
    past.saturating_sub(first_use(uses, unit))
}

// An entry's index, as it stands in the entry's number: 0 if nothing stands from lo to hi.
#[tactic(auto, unfolding(entries::specs::Placing::index_part))]
fn index_part(uses: &[u64], unit: u8, p: u32, lo: usize, hi: usize) -> u64
    ensures value { result ≡ index_part uses.now unit p lo hi }
    ensures upper_bound { result ≤ 513 }
{
    if lo < hi {
        uses_before(uses, unit, p) as u64 + 1
    } else {
        0
    }
}

// The first number of an entry of the unit that ends at p.
fn end_word(unit: u8, p: u32) -> u64
    ensures { result ≡ unit * 2 ^ 32 + p }
{
    unit as u64 * 0x1_0000_0000 + p as u64
}

// The second number of the entry of v that takes the place of what stands from lo to hi. The remainder makes it fit, whatever v is.
fn held_word(uses: &[u64], v: u16, unit: u8, from: u32, lo: usize, hi: usize) -> u64
    ensures { result ≡ held_word (v % 512) from (index_part uses.now unit from lo hi) }
{
    let index = index_part(uses, unit, from, lo, hi);
    from as u64 * 0x1_0000_0000 + (v as u64 % 512 + 2) * 0x1_0000 + index
}

// One segment on one unit: the entries that end inside it, fixed uses all, give way to an entry of v. A virtual register has a number under 512;
// of any other its remainder is taken. A struct of unit, from and to would be no plainer: on each unit (placing) the same segments are assigned,
// whose values do not matter here.
#[tactic(auto, unfolding(entries::specs::Placing::assigning_segment))]
pub fn assign_segment(table: &mut TableMut<'_>, uses: &[u64], v: u16, unit: u8, from: u32, to: u32)
    ensures same { SameTable table.old table.new }
    ensures after { words_of table.new ≡ assigning_segment uses.now (v % 512) unit (words_of table.old) from to }
{
    let lo = first_past(table.as_table().ends, unit, from);
    let hi = first_past(table.as_table().ends, unit, to);
    let rest = held_word(uses, v, unit, from, lo, hi);
    remove_run(table, lo, hi.saturating_sub(lo));
    insert(table, end_word(unit, to), rest);
}

// Whether the entry at `place` ends at `end` and is v's.
#[tactic(auto, unfolding(entries::specs::Placing::is_own))]
fn is_own(table: Table<'_>, v: u16, end: u64, place: usize) -> bool
    ensures { result ≡ is_own v end place (words_in table.entry) }
{
    place < 2560
        && at(table.ends, place) == end
        && at(table.rests, place) % 0x1_0000_0000 / 0x1_0000 == v as u64 + 2
}

// Puts the fixed uses number `first` to `last` back. One number after another, and not over a part of the slice: this asks nothing of the slice, and
// where it ends before `last`, each number past its end is read as 0, which goes into the table like any other (`inserting_uses`).
fn insert_uses(table: &mut TableMut<'_>, uses: &[u64], first: usize, last: usize)
    ensures same { SameTable table.old table.new }
    ensures after { words_of table.new ≡ inserting_uses (last - first) first uses.now (words_of table.old) }
{
    for j in first..last {
        insert_use(table, at(uses, j));
    }
}

// The number of the first fixed use under an entry of the unit that has this second number; `last` if there is none.
#[tactic(auto, unfolding(entries::specs::Placing::first_under))]
fn first_under(uses: &[u64], unit: u8, rest: u64, last: usize) -> usize
    ensures { result ≡ first_under uses.now unit (rest % 2 ^ 16) last }
{
    let index = rest % 0x1_0000;
    if index == 0 {
        return last;
    }
    first_use(uses, unit) + (index as usize - 1)
}

// One segment on one unit: the entry of v goes, and the fixed uses that it replaced come back.
#[tactic(auto, unfolding(entries::specs::Placing::evicting_segment))]
pub fn evict_segment(table: &mut TableMut<'_>, uses: &[u64], v: u16, unit: u8, to: u32)
    ensures same { SameTable table.old table.new }
    ensures after { words_of table.new ≡ evicting_segment uses.now v unit (words_of table.old) to }
{
    let end = end_word(unit, to);
    let place = find(table.as_table().ends, end);
    if is_own(table.as_table(), v, end, place) {
        let last = use_place(uses, unit, to);
        let first = first_under(uses, unit, at(table.as_table().rests, place), last);
        remove(table, place);
        insert_uses(table, uses, first, last);
    }
}
