// Writes the sheet of a job's bytes to a descriptor, line by line. What is written is what the crate sheets says; here is what moves it, and
// counts it.
#![tactic(auto)]

ghost use Rattle.std.specs.Prelude.{◌≡◌, IfSome, length};
ghost use Rattle.lent.specs.Parts.{part};
ghost use Rattle.reg_matrix.specs.Refused.{numbered};
ghost use Rattle.allocator.specs.Sheet.{printed};
ghost use Rattle.lines.specs.LineTexts.{sheet_of};
ghost use Rattle.sheets.specs.Printing.{shown};
ghost use Rattle.printer.specs.Writing.{WrittenOf, lines_size};

use io::write_all;
use job_sheet::begin;
use lent::part;
use lines::LentSheet;
use listing::Listing;
use reg_matrix::Refusal;
use result_lines::refused_line;
use sheets::sheet::next;
use stage_loader::buffers::StageBuffers;

// What was written: whether all of it, and of how many bytes the writes were that succeeded. Both always count, so this is no Option or Result.
#[derive(Clone, Copy, PartialEq, Eq, Debug)]
pub struct Written {
    pub whole: bool,
    pub bytes: usize,
}

// Writes the first n bytes of a line, and answers how many they are. What a write that fails has taken is not counted.
fn write_front(fd: i32, line: &[u8], n: usize) -> Option<usize>
    ensures { IfSome result (λ written. written ≡ length (part 0 n line.now)) }
{
    let front = part(line, 0, n);
    write_all(fd, front).then_some(front.len())
}

// Writes the lines of a sheet from a position on, up to the last or to a write that fails.
fn write_lines(
    fd: i32,
    position: Listing,
    sheet: LentSheet<'_>,
    words: &[u64],
    line: &mut [u8; 256],
) -> Written
    ensures { WrittenOf (lines_size position (sheet_of sheet.entry) words.now) result }
{
    let mut c = position;
    let mut bytes: usize = 0;
    // a `for` is no plainer: a line comes with the position after it, and an iterator would keep the line lent
    // printout's `print_from` walks alike, and is another function: one for both would be public and take a closure, whose calls it would have to
    // require, and no public function has a `requires`; and here a write that fails ends the walk
    loop {
        match next(c, sheet, words, line) {
            Ok(None) => return Written { whole: true, bytes },
            // not met: the lent line has 256 bytes
            Err(_) => return Written {
                whole: false,
                bytes,
            },
            Ok(Some((n, after))) => {
                let Some(written) = write_front(fd, line, n) else {
                    return Written {
                        whole: false,
                        bytes,
                    };
                };
                bytes += written;
                c = after;
            }
        }
    }
}

// Writes what is to be printed: the lines from a position on, or `refused N` alone.
fn write_printing(
    fd: i32,
    printing: Result<Listing, Refusal>,
    sheet: LentSheet<'_>,
    words: &[u64],
    line: &mut [u8; 256],
) -> Written
    ensures { WrittenOf (length (shown (numbered printing) (sheet_of sheet.entry) words.now)) result }
{
    match printing {
        Err(r) => {
            let size = refused_line(line, r.number());
            let written = write_front(fd, line, size);
            Written {
                whole: written.is_some(),
                bytes: written.unwrap_or(0),
            }
        }
        Ok(position) => write_lines(fd, position, sheet, words, line),
    }
}

// Loads and runs the job of these bytes with the job's budget, and writes its sheet, or `refused N` alone. Every byte string has one. Answers whether
// all of it was written, which is then as long as the definition's, and how many bytes.
#[tactic(auto, using(crate::proofs::WriteLaws::sheet_written), unfolding(reg_matrix::specs::Refusals::short_buffer))]
pub fn write_sheet(fd: i32, s: &[u8]) -> Written
    ensures { WrittenOf (length (printed s.now)) result }
{
    let mut words = [0u64; 512];
    let mut line = [0u8; 256];
    let mut buffers = StageBuffers::new();
    let (mut job, mut state, last) = buffers.lend();
    let printing = begin(s, &mut job, &mut state, last, &mut words);
    let table = state.as_table();
    let maps = job.as_job().j64;
    let sheet = LentSheet { maps, table };
    write_printing(fd, printing, sheet, &words, &mut line)
}
