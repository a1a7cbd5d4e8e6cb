// Reads a script (docs/SCRIPT.md) from standard input and prints its transcript.
#![tactic(auto)]

use scripts::run_script;

fn main() {
    run_script(u64::MAX);
}
