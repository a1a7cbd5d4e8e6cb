// Reads a job from standard input and prints its sheet, or `refused N` alone (01, "The printed sheet"). A read that fails ends the input.
#![tactic(auto)]

// The descriptors of standard input and output.
const STDIN_FILENO: i32 = 0;

const STDOUT_FILENO: i32 = 1;

fn main() {
    // one byte more than a job may have: a longer one is refused by its length, so what follows needs no reading
    let mut job = [0u8; 32769];
    let n = io::read_full(STDIN_FILENO, &mut job);
    printer::write_sheet(STDOUT_FILENO, &job[..n]);
}
