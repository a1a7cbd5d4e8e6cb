// Results read from lent words: how a virtual register stands, and the printed sheet line by line.
#![tactic(auto)]

ghost use Rattle.std.specs.Prelude.{◌≡◌};
ghost use Rattle.std.proofs.lemmas.List.Edits.{sets};
ghost use Rattle.lines.specs.LineTexts.{sheet_of};
ghost use Rattle.reg_matrix.specs.Refused.{numbered, number_in};
ghost use Rattle.results.specs.Reading.{standing_found, listing_in, step_words, LineCalled};

use lent::{at, put};
use lines::LentSheet;
use listing::Listing;
use record_words::record_of;
use reg_matrix::Refusal;
use result_lines::ending_of;
use words::header::{LentWords, header_of, short_words};
use words::numbers::{place_number, place_of, standing_number};

// How the virtual register v stands: 0 it waits, 1 it is left over, 256 + r it holds the register r. Refused with 15 where a slice is short, with 8
// where there is no such number.
#[tactic(auto, unfolding(crate::specs::Reading::standing_found))]
pub fn standing(words: LentWords<'_>, v: u64) -> Result<u64, Refusal>
    ensures { numbered result ≡ standing_found words.entry.header.now words.entry.records.now v }
{
    if short_words(words) {
        return Err(Refusal::ShortBuffer);
    }
    if header_of(words.header).virt_regs as u64 <= v {
        return Err(Refusal::UnknownNumber);
    }
    Ok(standing_number(record_of(at(words.records, v as usize))))
}

// The position in the sheet that a number stands for.
#[tactic(auto, unfolding(crate::specs::Reading::listing_in))]
fn listing_of(header: &[u64], answer: &[u64], position: u64) -> Listing
    ensures { result ≡ listing_in header.now answer.now position }
{
    Listing {
        ending: ending_of(at(answer, 0)),
        dequeues: at(answer, 1),
        header: header_of(header),
        place: place_of(position),
    }
}

// Stores the words of what was found: the line's length and the position after it, or that there is none.
fn store_next(found: Option<(usize, Listing)>, next: &mut [u64])
    ensures { next.new ≡ sets next.old 0 (step_words found) }
{
    match found {
        Some((length, after)) => {
            put(next, 0, length as u64);
            put(next, 1, place_number(after.place));
        }
        None => {
            put(next, 0, 0);
            put(next, 1, u64::MAX);
        }
    }
}

// Stores the line of the sheet at this position from the front of `line`, and its length and the position after it in `next`; past the last line the
// length is 0 and the position 2^64 - 1. Positions start at 0. `answer` is what the run answered, its word's number and its dequeues. Refused with 15
// where a slice is short, and then nothing is changed.
pub fn sheet_line(
    words: LentWords<'_>,
    answer: &[u64],
    position: u64,
    sheet: LentSheet<'_>,
    line: &mut [u8],
    next: &mut [u64],
) -> Result<(), Refusal>
    ensures { LineCalled words.entry.header.now words.entry.records.now answer.now position (sheet_of sheet.entry) line.old next.old line.new next.new (number_in result) }
{
    if short_words(words) || answer.len() < 2 || next.len() < 2 {
        return Err(Refusal::ShortBuffer);
    }
    let listing = listing_of(words.header, answer, position);
    let record = record_of(at(words.records, listing.number()));
    let found = listing.next(record, sheet, line)?;
    store_next(found, next);
    Ok(())
}
