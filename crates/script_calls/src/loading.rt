// The job of a script, loaded, with the calls on it.
ghost use Rattle.std.specs.Prelude.{◌≤◌};

use crate::{Bad, make_calls};
use job_parts::lent_job::LoadedJob;
use reg_matrix::Refusal;
use script_bytes::input::Input;
use script_bytes::output::print;
use stage_loader::buffers::StageBuffers;
use stage_loader::load;

// Prints that a job is refused, with the refusal's number.
fn print_refused(line: &mut [u8], r: Refusal) {
    let length = result_lines::refused_line(line, r.number());
    print(line, length);
}

// Loads the job of these bytes into buffers of its own, and makes the calls of a script on it, which the input has next. A refused job prints its
// refusal alone. What is left of the script never grows.
pub fn run_job(bytes: &[u8], input: &mut Input, line: &mut [u8]) -> Result<(), Bad>
    ensures { input.new.left ≤ input.old.left }
{
    let mut buffers = StageBuffers::new();
    let (mut job, mut state, last) = buffers.lend();
    let loaded = load(bytes, &mut job, &mut state, last);
    match loaded {
        Err(r) => {
            print_refused(line, r);
            Ok(())
        }
        Ok(header) => {
            let loaded = LoadedJob {
                header,
                job: job.as_job(),
            };
            make_calls(input, loaded, &mut state, last, line)
        }
    }
}
