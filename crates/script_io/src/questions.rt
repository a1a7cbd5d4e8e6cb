// Questions, which change nothing: checks of segments on a register, and whether a unit is spare.
ghost use Rattle.std.specs.Prelude.{◌≡◌, [], ◌∷◌, ◌*◌, length, is_some};
ghost use Rattle.reg_matrix.specs.Questions.{spare_refusal};
ghost use Rattle.reg_matrix.specs.Refused.{numbered, or_refused};
ghost use Rattle.entries.specs.Moves.{words_in};
ghost use Rattle.unit_free.specs.Spare.{free_at, range};
ghost use Rattle.narrow.specs.Cut.{cut};
ghost use Rattle.script_bytes.specs.Reading.{Took};

use matrix::Cursor;
use matrix::check::InterferenceQuery;
use narrow::Narrow;
use reg_matrix::{Refusal, ValueSegment};
use script_bytes::input::Input;
use script_bytes::output::print;
use segment_lists::{check_list, next_in_list};
use table_words::buffers::{RegMatrix, Table};
use unit_free::is_unit_free;

// Reads one segment, of ten bytes, if it is all there.
fn read_segment(input: &mut Input) -> Option<ValueSegment>
    ensures { Took 10 input.old.left input.new.left (is_some result) }
{
    let from = input.read_number(4)?;
    let to = input.read_number(4)?;
    let value = input.read_number(2)?;
    Some(ValueSegment {
        from: u32::cut(from),
        to: u32::cut(to),
        value: u16::cut(value),
    })
}

// Reads the segments of a check into the list, if they are all there.
fn read_segments(input: &mut Input, list: &mut [ValueSegment]) -> Option<()>
    ensures { Took (10 * length list.old) input.old.left input.new.left (is_some result) }
{
    for segment in list {
        *segment = read_segment(input)?;
    }
    Some(())
}

// Prints the reports on the first n of these segments from this position on.
fn print_reports(
    list: &[ValueSegment],
    n: usize,
    start: Cursor,
    matrix: RegMatrix<'_>,
    line: &mut [u8],
) {
    let mut here = start;
    // a `for` is no plainer: an `Iterator` over the reports owes laws of its own (`can_next`, `next_gives`, `remaining`), where the
    // promise of `next` on one report and the position after it is enough
    while let Some((report, after)) = next_in_list(list, n, here, matrix) {
        let length = answers::report_line(line, report);
        print(line, length);
        here = after;
    }
}

// A check of the first n of these segments on a register.
fn check(
    list: &[ValueSegment],
    n: usize,
    query: InterferenceQuery<'_>,
    matrix: RegMatrix<'_>,
    line: &mut [u8],
) {
    match check_list(list, n, query, matrix) {
        Err(refusal) => {
            let length = result_lines::refused_line(line, refusal.number());
            print(line, length);
        }
        Ok(c) => {
            let length = answers::check_line(line);
            print(line, length);
            print_reports(list, n, c, matrix, line);
        }
    }
}

// Reads the segments of a check, at most 255 of ten bytes each, and makes it, if they are all there.
pub fn ask_check(
    input: &mut Input,
    segments: u64,
    query: InterferenceQuery<'_>,
    matrix: RegMatrix<'_>,
    line: &mut [u8],
) -> Option<()>
    ensures { Took (10 * cut 255 segments) input.old.left input.new.left (is_some result) }
{
    let mut room = [ValueSegment::default(); 255];
    let n = u8::cut(segments) as usize;
    read_segments(input, &mut room[..n])?;
    check(&room, n, query, matrix, line);
    Some(())
}

// Asks whether the unit is spare from `from` to `to`, prints what is answered, and answers it. A number that is too wide for its type is asked as the
// greatest of the type.
pub fn ask_unit_free(
    unit: u64,
    from: u64,
    to: u64,
    table: Table<'_>,
    line: &mut [u8],
) -> Result<bool, Refusal>
    ensures { numbered result ≡ or_refused (spare_refusal (length table.entry.ends.now ∷ length table.entry.rests.now ∷ []) (cut 255 unit) (range (cut 0xFFFF_FFFF from) (cut 0xFFFF_FFFF to))) (free_at (cut 255 unit) (cut 0xFFFF_FFFF from) (cut 0xFFFF_FFFF to) (words_in table.entry)) }
{
    let answer = is_unit_free(table, u8::cut(unit), u32::cut(from), u32::cut(to));
    let length = answers::unit_free_line(line, answer);
    print(line, length);
    answer
}
