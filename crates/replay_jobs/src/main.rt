// Reads jobs from standard input, each after its length in four bytes, the lowest first, and prints the sheet of each, one after another. It ends
// with the input, or at a length that is above 32,769 or that the input does not have.
#![tactic(auto)]

use io::read_full;
use printer::write_sheet;
use script_bytes::input::Input;

// The descriptors of standard input and output.
const STDIN_FILENO: i32 = 0;

const STDOUT_FILENO: i32 = 1;

// Reads the next job into what is lent and prints its sheet, if there is one.
fn replay(room: &mut [u8]) -> Option<()> {
    let length = Input { left: 4 }.read_number(4)?;
    let job = room.get_mut(..length as usize)?;
    if read_full(STDIN_FILENO, job) < job.len() {
        return None;
    }
    write_sheet(STDOUT_FILENO, job);
    Some(())
}

fn main() {
    let mut job = [0u8; 32769];
    // a proved loop has to end, and nothing says that an input does: no input has as many jobs
    for _ in 0..u64::MAX {
        if replay(&mut job).is_none() {
            return;
        }
    }
}
