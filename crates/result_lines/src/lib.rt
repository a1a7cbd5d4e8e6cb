// The lines of the sheet that tell how a run ended, how a virtual register stands, and a refusal (01, "The printed sheet"), each stored from the
// front of a lent line. What a line has no room for is not stored.
#![tactic(auto)]

ghost use Rattle.std.specs.Prelude.{◌≡◌};
ghost use Rattle.reg_matrix.specs.Lines.{refused_line};
ghost use Rattle.allocator.specs.Sheet.{end_word, end_line, standing as standing_of};
ghost use Rattle.texts.specs.Texts.{Stored, StoredIn};
ghost use Rattle.result_lines.specs.ResultTexts.{standing_text, ending_in};

use allocator::{Assignment, Ending};
use texts::Line;

// How a run ended, by its word's number: 1 done, 2 spent, and any other toomany. C and the answers of a list of calls have the word as this number.
#[tactic(auto, unfolding(crate::specs::ResultTexts::ending_in))]
pub fn ending_of(n: u64) -> Ending
    ensures { result ≡ ending_in n }
{
    match n {
        1 => Ending::Done,
        2 => Ending::Spent,
        _ => Ending::TooMany,
    }
}

#[tactic(auto, unfolding(reg_matrix::specs::Lists::ascii))]
fn end_word(line: &mut Line<'_>, ending: Ending)
    ensures same { line.new.bytes.ghost_name ≡ line.old.bytes.ghost_name }
    ensures stored { StoredIn line.old (end_word ending) line.new }
{
    match ending {
        Ending::Done => line.text(b"done"),
        Ending::Spent => line.text(b"spent"),
        Ending::TooMany => line.text(b"toomany"),
    }
}

// `end WORD DEQUEUES`.
pub fn end_line(line: &mut [u8], ending: Ending, dequeues: u64) -> usize
    ensures { Stored line.old 0 (end_line ending dequeues) line.new result }
{
    let mut out = Line { bytes: line, at: 0 };
    out.text(b"end ");
    end_word(&mut out, ending);
    out.spaced(dequeues);
    out.byte(b'\n');
    out.at
}

// `refused N`.
pub fn refused_line(line: &mut [u8], n: u64) -> usize
    ensures { Stored line.old 0 (refused_line n) line.new result }
{
    let mut out = Line { bytes: line, at: 0 };
    out.text(b"refused ");
    out.number(n);
    out.byte(b'\n');
    out.at
}

#[tactic(auto, unfolding(reg_matrix::specs::Lists::ascii))]
fn standing(line: &mut Line<'_>, assignment: Assignment)
    ensures same { line.new.bytes.ghost_name ≡ line.old.bytes.ghost_name }
    ensures stored { StoredIn line.old (standing_of assignment) line.new }
{
    match assignment {
        Assignment::Assigned { reg, .. } => {
            line.text(b" reg ");
            line.number(reg as u64);
        }
        Assignment::Unassigned { .. } => line.text(b" wait"),
        Assignment::Dead => line.text(b" left"),
    }
}

// `v N reg R`, `v N left` or `v N wait`.
pub fn standing_line(line: &mut [u8], v: u16, assignment: Assignment) -> usize
    ensures { Stored line.old 0 (standing_text v assignment) line.new result }
{
    let mut out = Line { bytes: line, at: 0 };
    out.text(b"v ");
    out.number(v as u64);
    standing(&mut out, assignment);
    out.byte(b'\n');
    out.at
}
