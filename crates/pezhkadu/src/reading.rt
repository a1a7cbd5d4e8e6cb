// Reading results: how a virtual register stands, and the printed sheet line by line.
ghost use Rattle.std.specs.Prelude.{◌≡◌};
ghost use Rattle.lines.specs.LineTexts.{sheet_of};
ghost use Rattle.reg_matrix.specs.Refused.{numbered, number_in};
ghost use Rattle.results.specs.Reading.{standing_found, LineCalled};

use lines::LentSheet;
use reg_matrix::Refusal;
use results::{sheet_line, standing};
use words::header::LentWords;

// How the virtual register v stands: 0 it waits, 1 it is left over, 256 + r it holds the register r. Refused with 15 where a slice is short, with 8
// where there is no such number.
pub fn pezhkadu_standing(words: LentWords<'_>, v: u64) -> Result<u64, Refusal>
    ensures { numbered result ≡ standing_found words.entry.header.now words.entry.records.now v }
{
    standing(words, v)
}

// Stores the line of the sheet at this position from the front of `line`, and its length and the position after it in `next`; past the last line the
// length is 0 and the position 2^64 - 1. Positions start at 0. `answer` is what the run answered, its word's number and its dequeues. Refused with 15
// where a slice is short, and then nothing is changed.
pub fn pezhkadu_sheet_line(
    words: LentWords<'_>,
    answer: &[u64],
    position: u64,
    sheet: LentSheet<'_>,
    line: &mut [u8],
    next: &mut [u64],
) -> Result<(), Refusal>
    ensures { LineCalled words.entry.header.now words.entry.records.now answer.now position (sheet_of sheet.entry) line.old next.old line.new next.new (number_in result) }
{
    sheet_line(words, answer, position, sheet, line, next)
}
