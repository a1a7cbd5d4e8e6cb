// The lines of the sheet that show the table: its entries, and the spare units (01, "The printed sheet"). Each is stored from the front of a lent
// line; what a line has no room for is not stored. Which line is next, the crate listing says.
#![tactic(auto)]

ghost use Rattle.std.specs.Prelude.{◌≡◌, [], cond, ◌<◌};
ghost use Rattle.reg_matrix.specs.Lines.{number as decimal, sp, index_text, reservation_text, entry_line};
ghost use Rattle.texts.specs.Texts.{Stored, StoredIn};
ghost use Rattle.lines.specs.LineTexts.{sheet_of, is_register_unit, is_spare, spare_text};

use lent::at;
use reg_matrix::{Entry, Reservation};
use table_words::buffers::Table;
use texts::Line;
use unit_free::is_unit_free;

// What is lent of a loaded stage that a sheet shows: the registers' maps of units, and the table. The records are not in it: a line needs one of
// them, which goes by value, and callers have them in words or as an array.
#[derive(Clone, Copy)]
pub struct LentSheet<'a> {
    pub maps: &'a [u64],
    pub table: Table<'a>,
}

#[tactic(auto, unfolding(reg_matrix::specs::Lists::ascii))]
fn index(line: &mut Line<'_>, i: Option<u16>)
    ensures same { line.new.bytes.ghost_name ≡ line.old.bytes.ghost_name }
    ensures stored { StoredIn line.old (sp (index_text i)) line.new }
{
    match i {
        None => line.text(b" -"),
        Some(n) => line.spaced(n as u64),
    }
}

#[tactic(auto, unfolding(reg_matrix::specs::Lists::ascii, reg_matrix::specs::Lines::reservation_text))]
fn reservation(line: &mut Line<'_>, held: Reservation)
    ensures same { line.new.bytes.ghost_name ≡ line.old.bytes.ghost_name }
    ensures stored { StoredIn line.old (reservation_text held) line.new }
{
    match held {
        Reservation::Held(v, i) => {
            line.text(b" held ");
            line.number(v as u64);
            index(line, i);
        }
        Reservation::FixedUse(x) => {
            line.text(b" use ");
            line.number(x as u64);
        }
        Reservation::FixedDef => line.text(b" def"),
    }
}

// `u U FROM TO held N I`, `u U FROM TO use V` or `u U FROM TO def`.
pub fn entry_line(line: &mut [u8], entry: Entry) -> usize
    ensures { Stored line.old 0 (entry_line entry) line.new result }
{
    let mut out = Line { bytes: line, at: 0 };
    out.text(b"u ");
    out.number(entry.unit as u64);
    out.spaced(entry.from as u64);
    out.spaced(entry.to as u64);
    reservation(&mut out, entry.reservation);
    out.byte(b'\n');
    out.at
}

// Whether a unit is one of those of the first `regs` registers.
fn is_register_unit(maps: &[u64], regs: u8, unit: u8) -> bool
    requires { unit < 64 }
    ensures { result ≡ is_register_unit maps.now regs unit }
{
    (0..regs as usize).any(|i| (at(maps, i) >> unit) % 2 == 1)
}

// Whether the spare line has a unit.
#[tactic(auto, using(crate::proofs::SpareLaws::by_answer), unfolding(crate::specs::LineTexts::is_spare))]
fn is_free_register_unit(sheet: LentSheet<'_>, regs: u8, from: u32, to: u32, unit: u8) -> bool
    requires { unit < 64 }
    ensures { result ≡ is_spare (sheet_of sheet.entry) regs from to unit }
{
    is_register_unit(sheet.maps, regs, unit)
        && is_unit_free(sheet.table, unit, from, to).unwrap_or(false)
}

// A unit of the spare line, where it is spare.
#[tactic(auto, using(texts::proofs::StoreLaws::nothing))]
fn free_unit(line: &mut Line<'_>, unit: u8, spare: bool)
    ensures same { line.new.bytes.ghost_name ≡ line.old.bytes.ghost_name }
    ensures stored { StoredIn line.old (cond spare (sp (decimal unit)) []) line.new }
{
    if spare {
        line.spaced(unit as u64);
    }
}

// `spare` and the units of the first `regs` registers that are spare from `from` to `to`.
pub fn free_units_line(line: &mut [u8], sheet: LentSheet<'_>, regs: u8, from: u32, to: u32) -> usize
    ensures { Stored line.old 0 (spare_text (sheet_of sheet.entry) regs from to) line.new result }
{
    let mut out = Line { bytes: line, at: 0 };
    out.text(b"spare");
    for unit in 0..64 {
        let spare = is_free_register_unit(sheet, regs, from, to, unit);
        free_unit(&mut out, unit, spare);
    }
    out.byte(b'\n');
    out.at
}
