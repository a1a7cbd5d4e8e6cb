// The printed sheet line by line, in a small buffer that the caller lends: no buffer holds the whole sheet. Its definitions are those of the crates
// reg_matrix (Lines) and allocator (Sheet); the crate lines stores each line.
#![tactic(auto)]

use allocator::Ending;
use job::JobHeader;

pub mod sheet;

// Which line is next: the first, that of a virtual register, or that of an entry of the table. Past the last virtual register the entries are next,
// past the last entry the spare line.
#[derive(Clone, Copy, PartialEq, Eq, Debug)]
pub enum Place {
    Head,
    VirtReg(u16),
    Entry(usize),
    End,
}

// A position in the sheet of a run with this ending and as many dequeues, of a job with this header.
#[derive(Clone, Copy)]
pub struct Listing {
    pub ending: Ending,
    pub dequeues: u64,
    pub header: JobHeader,
    pub place: Place,
}
