// Reads a row of scripts (docs/SCRIPT.md) from standard input, each after its length as four bytes, little-endian, and prints their transcripts.
#![tactic(auto)]

use script_bytes::input::Input;
use scripts::run_script;

// Reads the next script and prints its transcript, if there is one.
fn replay() -> Option<()> {
    let length = Input { left: 4 }.read_number(4)?;
    run_script(length);
    Some(())
}

fn main() {
    // a proved loop has to end, and nothing says that an input does: no input has as many scripts
    for _ in 0..u64::MAX {
        if replay().is_none() {
            return;
        }
    }
}
