// A walk through the sheet that carries its position by value from line to line (01, "The printed sheet").
ghost use Rattle.std.specs.Prelude.{◌≡◌, ◌<◌};
ghost use Rattle.reg_matrix.specs.Refused.{numbered};
ghost use Rattle.listing.specs.declared.Place.TheVariants.{Head};
ghost use Rattle.lines.specs.LineTexts.{sheet_of};
ghost use Rattle.listing.specs.Walk.{spare_found, entry_found, virt_reg_found, found, moved as moved_to, Answered, AnsweredIfLong, number_at};

use crate::{Listing, Place};
use allocator::{Assignment, Ending};
use job::JobHeader;
use lent::at;
use lines::LentSheet;
use reg_matrix::Refusal;
use table_words::words::entry_of;

impl Listing {
    // The position before the first line of the sheet.
    pub fn start(ending: Ending, dequeues: u64, header: JobHeader) -> Listing
        ensures { result ≡ record { ending = ending; dequeues = dequeues; header = header; place = Head } }
    {
        Listing {
            ending,
            dequeues,
            header,
            place: Place::Head,
        }
    }

    // The number of the virtual register whose record `next` asks for, below 512, or 0 where it asks for none.
    pub fn number(self) -> usize
        ensures { (result ≡ number_at self.place) × (result < 512) }
    {
        match self.place {
            Place::VirtReg(v) if v < 512 => v as usize,
            _ => 0,
        }
    }

    fn moved(self, place: Place) -> Listing
        ensures { result ≡ moved_to self place }
    {
        Listing { place, ..self }
    }

    #[tactic(auto, using(crate::proofs::WalkLaws::told, crate::proofs::LineLaws::spare_room))]
    fn next_free_units(self, sheet: LentSheet<'_>, line: &mut [u8; 256]) -> Option<(usize, Listing)>
        ensures { Answered self (spare_found self.header.probe self.header.regs (sheet_of sheet.entry)) line.old line.new result }
    {
        let (from, to) = self.header.probe?;
        let n = lines::free_units_line(line, sheet, self.header.regs, from, to);
        Some((n, self.moved(Place::End)))
    }

    #[tactic(auto, using(crate::proofs::WalkLaws::told, crate::proofs::LineLaws::entry_room), unfolding(crate::specs::Walk::entry_found))]
    fn next_entry(
        self,
        i: usize,
        sheet: LentSheet<'_>,
        line: &mut [u8; 256],
    ) -> Option<(usize, Listing)>
        ensures { Answered self (entry_found i self.header (sheet_of sheet.entry)) line.old line.new result }
    {
        if 2560 <= i {
            return self.next_free_units(sheet, line);
        }
        let end = at(sheet.table.ends, i);
        if end == 0xFFFF_FFFF_FFFF_FFFF {
            return self.next_free_units(sheet, line);
        }
        let n = lines::entry_line(line, entry_of(end, at(sheet.table.rests, i)));
        Some((n, self.moved(Place::Entry(i + 1))))
    }

    #[tactic(auto, using(crate::proofs::WalkLaws::told, crate::proofs::LineLaws::standing_room), unfolding(crate::specs::Walk::virt_reg_found))]
    fn next_virt_reg(
        self,
        v: u16,
        assignment: Assignment,
        sheet: LentSheet<'_>,
        line: &mut [u8; 256],
    ) -> Option<(usize, Listing)>
        ensures { Answered self (virt_reg_found v assignment self.header (sheet_of sheet.entry)) line.old line.new result }
    {
        if self.header.virt_regs <= v {
            return self.next_entry(0, sheet, line);
        }
        let n = result_lines::standing_line(line, v, assignment);
        Some((n, self.moved(Place::VirtReg(v + 1))))
    }

    #[tactic(auto, using(crate::proofs::WalkLaws::told, crate::proofs::LineLaws::end_room), unfolding(crate::specs::Walk::found))]
    fn next_line(
        self,
        assignment: Assignment,
        sheet: LentSheet<'_>,
        line: &mut [u8; 256],
    ) -> Option<(usize, Listing)>
        ensures { Answered self (found self assignment (sheet_of sheet.entry)) line.old line.new result }
    {
        match self.place {
            Place::Head => {
                let n = result_lines::end_line(line, self.ending, self.dequeues);
                Some((n, self.moved(Place::VirtReg(0))))
            }
            Place::VirtReg(v) => self.next_virt_reg(v, assignment, sheet, line),
            Place::Entry(i) => self.next_entry(i, sheet, line),
            Place::End => None,
        }
    }

    // Stores the next line of the sheet from the front of the lent line, and answers its length and the position after it, or that there is none.
    // `assignment` is the record of the virtual register `number()`. Refused with 15 where the lent line is below 256 bytes.
    pub fn next(
        self,
        assignment: Assignment,
        sheet: LentSheet<'_>,
        line: &mut [u8],
    ) -> Result<Option<(usize, Listing)>, Refusal>
        ensures { AnsweredIfLong self (found self assignment (sheet_of sheet.entry)) line.old line.new (numbered result) }
    {
        match line.first_chunk_mut::<256>() {
            None => Err(Refusal::ShortBuffer),
            Some(front) => Ok(self.next_line(assignment, sheet, front)),
        }
    }
}
