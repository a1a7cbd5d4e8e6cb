// Reading results: how a virtual register stands, and the printed sheet line by line.
ghost use Rattle.std.specs.Prelude.{◌≡◌};
ghost use Rattle.lines.specs.LineTexts.{lent};
ghost use Rattle.results.specs.Reading.{standing_answer, LineCalled};

use crate::number;
use lines::LentSheet;
use table_words::buffers::Table;
use words::header::LentWords;

// How the virtual register v stands: 0 it waits, 1 it is left over, 256 + r it holds the register r. Refused with 15 where a slice is short, with 8
// where there is no such number.
#[tactic(auto, unfolding(results::specs::Reading::standing_answer))]
#[unsafe(no_mangle)]
pub extern "C" fn pezhkadu_standing(header: &[u64], records: &[u64], v: u64) -> u64
    ensures { result ≡ standing_answer header.now records.now v }
{
    match pezhkadu::reading::pezhkadu_standing(LentWords { header, records }, v) {
        Ok(n) => n,
        Err(r) => r.number(),
    }
}

// Stores the line of the sheet at this position from the front of `line`, and its length and the position after it in `next`; past the last line the
// length is 0 and the position 2^64 - 1. Positions start at 0. `answer` is what the run answered, its word's number and its dequeues. The answer is
// 0, or 15 where a slice is short, and then nothing is changed.
#[unsafe(no_mangle)]
pub extern "C" fn pezhkadu_sheet_line(
    header: &[u64],
    records: &[u64],
    answer: &[u64],
    position: u64,
    maps: &[u64],
    ends: &[u64],
    rests: &[u64],
    line: &mut [u8],
    next: &mut [u64],
) -> u64
    ensures { LineCalled header.now records.now answer.now position (lent maps.now ends.now rests.now) line.old next.old line.new next.new result }
{
    let words = LentWords { header, records };
    let table = Table { ends, rests };
    let sheet = LentSheet { maps, table };
    number(pezhkadu::reading::pezhkadu_sheet_line(words, answer, position, sheet, line, next))
}
