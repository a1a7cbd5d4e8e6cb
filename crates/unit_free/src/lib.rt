// Whether a unit is spare over a range (`RegMatrix::is_unit_free`), asked of the table's lent numbers.
#![tactic(auto)]

ghost use Rattle.std.specs.Prelude.{◌≡◌, [], ◌∷◌, length};
ghost use Rattle.reg_matrix.specs.Questions.{spare_refusal};
ghost use Rattle.reg_matrix.specs.Refused.{numbered, or_refused};
ghost use Rattle.entries.specs.Moves.{words_in};
ghost use Rattle.unit_free.specs.Spare.{free_at, range};

use lent::at;
use reg_matrix::Refusal;
use table_words::buffers::Table;
use table_words::ranges::range_refusal;
use table_words::search::first_past;

// Whether the unit's first entry that ends past `from`, if there is one, starts past `to`.
#[tactic(auto, unfolding(crate::specs::Spare::free_at))]
fn free_at(table: Table<'_>, unit: u8, from: u32, to: u32) -> bool
    ensures { result ≡ free_at unit from to (words_in table.entry) }
{
    let place = first_past(table.ends, unit, from);
    !(place < 2560
        && at(table.ends, place) / 0x1_0000_0000 == unit as u64
        && at(table.rests, place) / 0x1_0000_0000 <= to as u64)
}

// Whether the unit is spare from `from` to `to`, the end included, as in the source: it is unless the first entry ending past `from` starts
// at or before `to`. Refused with 15, 8, 5 or 6, in this order. A struct of unit, from and to would be no plainer: the spare line asks one range of
// unit after unit (lines), and a script's three numbers are cut one by one (script_io).
#[tactic(auto, unfolding(reg_matrix::specs::Questions::spare_refusal, reg_matrix::specs::Refusals::refusal, reg_matrix::specs::Refusals::short_buffer))]
pub fn is_unit_free(table: Table<'_>, unit: u8, from: u32, to: u32) -> Result<bool, Refusal>
    ensures { numbered result ≡ or_refused (spare_refusal (length table.entry.ends.now ∷ length table.entry.rests.now ∷ []) unit (range from to)) (free_at unit from to (words_in table.entry)) }
{
    if table.is_short() {
        return Err(Refusal::ShortBuffer);
    }
    if 64 <= unit {
        return Err(Refusal::UnknownNumber);
    }
    range_refusal(0, from, to)?;
    Ok(free_at(table, unit, from, to))
}
