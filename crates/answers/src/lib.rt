// What calls, checks and spare questions answer, as lines of a transcript (docs/SCRIPT.md), each stored from the front of a line that the caller
// lends. Their definitions are those of the crates reg_matrix (Lines) and allocator (Script).
#![tactic(auto)]

ghost use Rattle.std.specs.Prelude.{◌≡◌};
ghost use Rattle.reg_matrix.specs.Lists.{ascii};
ghost use Rattle.reg_matrix.specs.Lines.{line as ended, kind_text, report_line};
ghost use Rattle.reg_matrix.specs.Refused.{numbered};
ghost use Rattle.texts.specs.Texts.{Stored, StoredIn};
ghost use Rattle.answers.specs.Answers.{answer_text, spared_text};

use reg_matrix::{Interference, InterferenceKind, Refusal};
use result_lines::{end_line, ending_of, refused_line};
use texts::Line;

// A line that is one text.
fn whole(line: &mut [u8], bytes: &[u8]) -> usize
    ensures { Stored line.old 0 bytes.now line.new result }
{
    let mut out = Line { bytes: line, at: 0 };
    out.text(bytes);
    out.at
}

// `bad script`.
#[tactic(auto, unfolding(reg_matrix::specs::Lists::ascii))]
pub fn bad_line(line: &mut [u8]) -> usize
    ensures { Stored line.old 0 (ended (ascii "bad script")) line.new result }
{
    whole(line, b"bad script\n")
}

// `check`, before its reports.
#[tactic(auto, unfolding(reg_matrix::specs::Lists::ascii))]
pub fn check_line(line: &mut [u8]) -> usize
    ensures { Stored line.old 0 (ended (ascii "check")) line.new result }
{
    whole(line, b"check\n")
}

// What a call answers, by the three numbers that a list of calls stores for it in lent words: `refused N` where the refusal is not 0; `end WORD
// DEQUEUES` where it has a word; else `ok`.
#[tactic(auto, unfolding(reg_matrix::specs::Lists::ascii, crate::specs::Answers::answer_text))]
pub fn answer_line(line: &mut [u8], refusal: u64, word: u64, value: u64) -> usize
    ensures { Stored line.old 0 (answer_text refusal word value) line.new result }
{
    if refusal != 0 {
        return refused_line(line, refusal);
    }
    if word == 0 {
        return whole(line, b"ok\n");
    }
    end_line(line, ending_of(word), value)
}

// `spare`, `busy` or `refused N`, of a refusal by any number.
#[tactic(auto, unfolding(reg_matrix::specs::Lists::ascii, crate::specs::Answers::spared_text))]
pub fn spared_line(line: &mut [u8], answer: Result<bool, u8>) -> usize
    ensures { Stored line.old 0 (spared_text answer) line.new result }
{
    match answer {
        Ok(true) => whole(line, b"spare\n"),
        Ok(false) => whole(line, b"busy\n"),
        Err(n) => refused_line(line, n as u64),
    }
}

// What `is_unit_free` answers.
pub fn unit_free_line(line: &mut [u8], answer: Result<bool, Refusal>) -> usize
    ensures { Stored line.old 0 (spared_text (numbered answer)) line.new result }
{
    spared_line(line, answer.map_err(|r| r.number() as u8))
}

// Who stands in the way.
#[tactic(auto, unfolding(reg_matrix::specs::Lists::ascii))]
fn met(line: &mut Line<'_>, kind: InterferenceKind)
    ensures same { line.new.bytes.ghost_name ≡ line.old.bytes.ghost_name }
    ensures stored { StoredIn line.old (kind_text kind) line.new }
{
    match kind {
        InterferenceKind::Fixed => line.text(b" fixed"),
        InterferenceKind::VirtReg(v) => {
            line.text(b" v ");
            line.number(v as u64);
        }
    }
}

// `r UNIT SEGMENT FROM TO v N` or `r UNIT SEGMENT FROM TO fixed`.
pub fn report_line(line: &mut [u8], report: Interference) -> usize
    ensures { Stored line.old 0 (report_line report) line.new result }
{
    let mut out = Line { bytes: line, at: 0 };
    out.text(b"r ");
    out.number(report.unit as u64);
    out.spaced(report.segment as u64);
    out.spaced(report.from as u64);
    out.spaced(report.to as u64);
    met(&mut out, report.kind);
    out.byte(b'\n');
    out.at
}
