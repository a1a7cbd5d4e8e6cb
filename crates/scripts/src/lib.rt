// Whole scripts (docs/SCRIPT.md): how much of the input a script takes, the bytes of its job, and the line that ends a bad one. Its job is loaded,
// and its calls are made, in the crate script_calls.
#![tactic(auto)]

ghost use Rattle.std.specs.Prelude.{◌≤◌};

use lent::part;
use script_bytes::input::Input;
use script_bytes::output::print;
use script_calls::Bad;
use script_calls::loading::run_job;

// Reads a job of `length` bytes, if they are all there: the first 32,769 are kept, one more than a job may have, and the others are read
// and forgotten.
fn read_job<'a>(input: &mut Input, length: u64, bytes: &'a mut [u8]) -> Option<&'a [u8]>
    ensures { input.new.left ≤ input.old.left }
{
    let kept = length.min(32769);
    if input.read_some(kept, bytes) < kept {
        return None;
    }
    input.skip(length - kept)?;
    Some(part(bytes, 0, kept as usize))
}

// Reads the script that the input has and prints its transcript, up to where it is bad.
fn print_script(input: &mut Input, line: &mut [u8]) -> Result<(), Bad>
    ensures { input.new.left ≤ input.old.left }
{
    let mut bytes = [0u8; 32769];
    let size = input.read_number(4).ok_or(Bad)?;
    let job = read_job(input, size, &mut bytes).ok_or(Bad)?;
    run_job(job, input, line)
}

// Reads a script of `length` bytes, or to the input's end, and prints its transcript, with `bad script` at its end where the script is bad. What a
// bad script leaves unread is read and forgotten. Answers how many of the script's bytes were not there: none where the input has them all, so never
// more than `length`.
pub fn run_script(length: u64) -> u64
    ensures { result ≤ length }
{
    let mut input = Input { left: length };
    let mut line = [0u8; 16384];
    if print_script(&mut input, &mut line).is_err() {
        let size = answers::bad_line(&mut line);
        print(&line, size);
    }
    let rest = input.left;
    let _ = input.skip(rest);
    input.left
}
