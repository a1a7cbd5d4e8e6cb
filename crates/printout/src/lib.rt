// The whole printed sheet of a job's bytes in one lent buffer (01, "The printed sheet"), for callers that have room for it.
#![tactic(auto)]

ghost use Rattle.std.specs.Prelude.{◌+◌, ◌<◌, length};
ghost use Rattle.reg_matrix.specs.Refused.{numbered};
ghost use Rattle.table_words.specs.Buffers.{SameState};
ghost use Rattle.job_parts.specs.Lent.{slices_in, SameJob};
ghost use Rattle.run_loop.specs.Running.{state_in};
ghost use Rattle.lines.specs.LineTexts.{sheet_of};
ghost use Rattle.printout.specs.Whole.{Appended, LinesPrinted, ShownPrinted, Printed};

use job_parts::lent_job::LentJobMut;
use job_sheet::begin;
use lent::{part, put};
use lines::LentSheet;
use listing::Listing;
use reg_matrix::Refusal;
use result_lines::refused_line;
use sheets::sheet::next;
use table_words::buffers::LentState;

// Stores a text from place `at` on, and gives the place after it. That of the crate texts gives no place past the end of a full line; here it is one,
// since what the whole sheet would take is counted.
fn text(out: &mut [u8], at: usize, bytes: &[u8]) -> usize
    requires { at + length bytes.now < 4294967296 }
    ensures { Appended out.old at bytes.now out.new result }
{
    for (i, b) in bytes.iter().enumerate() {
        put(out, at + i, *b);
    }
    at + bytes.len()
}

// Stores the lines of a sheet from a position on, one after another, and gives how many bytes they have.
fn print_from(
    position: Listing,
    sheet: LentSheet<'_>,
    words: &[u64],
    line: &mut [u8; 256],
    out: &mut [u8],
) -> usize
    ensures { LinesPrinted position (sheet_of sheet.entry) words.now out.old out.new result }
{
    let mut c = position;
    let mut at: usize = 0;
    // a `for` is no plainer: a line comes with the position after it, and an iterator would keep the line lent
    // printer's `write_lines` walks alike, and is another function: one for both would be public and take a closure, whose calls it would have to
    // require, and no public function has a `requires`; and here the count goes on past the end of `out`, so that nothing ends the walk
    loop {
        match next(c, sheet, words, line) {
            Ok(None) => return at,
            // not met: the lent line has 256 bytes
            Err(_) => return at,
            Ok(Some((n, after))) => {
                at = text(out, at, part(line, 0, n));
                c = after;
            }
        }
    }
}

// Stores what is to be printed, the lines from a position on or `refused N` alone, and gives how many bytes that has.
fn print_shown(
    printing: Result<Listing, Refusal>,
    sheet: LentSheet<'_>,
    words: &[u64],
    out: &mut [u8],
) -> usize
    ensures { ShownPrinted (numbered printing) (sheet_of sheet.entry) words.now out.old out.new result }
{
    let mut line = [0u8; 256];
    match printing {
        Err(r) => {
            let size = refused_line(&mut line, r.number());
            text(out, 0, part(&line, 0, size))
        }
        Ok(position) => print_from(position, sheet, words, &mut line, out),
    }
}

// Loads the job of these bytes, runs it with its budget and stores what is printed for it from the front of `out`: its sheet, or `refused N` alone.
// The answer is how many bytes that has; what there is no room for is not stored. A refusal leaves everything else as it was.
pub fn print(
    s: &[u8],
    job: &mut LentJobMut<'_>,
    state: &mut LentState<'_>,
    last: &mut [u8],
    words: &mut [u64],
    out: &mut [u8],
) -> usize
    ensures same_job { SameJob job.old job.new }
    ensures same_state { SameState state.old state.new }
    ensures printed { Printed s.now (slices_in job.old) (state_in state.old last.old) words.old (slices_in job.new) (state_in state.new last.new) words.new out.old out.new result }
{
    let printing = begin(s, job, state, last, words);
    let table = state.as_table();
    let maps = job.as_job().j64;
    let sheet = LentSheet { maps, table };
    print_shown(printing, sheet, words, out)
}
