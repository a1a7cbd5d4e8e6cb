// The calls and questions of a script (docs/SCRIPT.md) on a loaded job, read from standard input as they come, each printed with what it answers.
// What the lines say is the business of the crate transcript, what the calls do that of the crates below. Here are the calls, one after another; the
// job that they are made on is loaded in `loading`.
#![tactic(auto)]

ghost use Rattle.std.specs.Prelude.{◌≤◌};
ghost use Rattle.table_words.specs.Buffers.{SameState};
ghost use Rattle.script_calls.specs.Calls.{CallTook};

use allocator::Assignment;
use answers::answer_line;
use call_lists::lists::carry_out_list;
use job::USES;
use job_parts::lent_job::LoadedJob;
use lent::from;
use lines::LentSheet;
use matrix::check::InterferenceQuery;
use records::first_records;
use script_bytes::input::Input;
use script_bytes::output::print;
use script_io::questions::{ask_check, ask_unit_free};
use table_words::buffers::{LentState, RegMatrix, Table};
use transcript::states;

pub mod loading;

// A question as it was read. Its numbers are as wide as a script may give them.
#[derive(Clone, Copy, PartialEq, Eq, Debug)]
enum Question {
    Check { reg: u64, segments: u64, full: bool },
    IsUnitFree { unit: u64, from: u64, to: u64 },
}

// What a script has next: a call to make, as the four words that a list of calls has for it, or a question. That they are words and no enum is a rule
// of the project: the function that carries out a list serves scripts too, so that the replays of scripts run what firmware runs.
#[derive(Clone, Copy, PartialEq, Eq, Debug)]
enum Call {
    Made([u64; 4]),
    Asked(Question),
}

// What is bad in a script: a call of no known kind, or anything that is not all there.
#[derive(Clone, Copy, PartialEq, Eq, Debug)]
pub struct Bad;

// Reads the arguments of a call or a question of this kind. A check's segments come after them.
fn read_arguments(input: &mut Input, kind: u64) -> Option<Call>
    ensures { input.new.left ≤ input.old.left }
{
    match kind {
        1 => {
            let v = input.read_number(2)?;
            let reg = input.read_number(1)?;
            let weight = input.read_number(4)?;
            Some(Call::Made([1, v, reg, weight]))
        }
        2 => {
            let v = input.read_number(2)?;
            Some(Call::Made([2, v, 0, 0]))
        }
        3 => {
            let budget = input.read_number(4)?;
            Some(Call::Made([3, budget, 0, 0]))
        }
        4 | 5 => {
            let reg = input.read_number(1)?;
            let segments = input.read_number(1)?;
            let full = kind == 5;
            Some(Call::Asked(Question::Check {
                reg,
                segments,
                full,
            }))
        }
        6 => {
            let unit = input.read_number(1)?;
            let from = input.read_number(4)?;
            let to = input.read_number(4)?;
            Some(Call::Asked(Question::IsUnitFree { unit, from, to }))
        }
        _ => None,
    }
}

// Reads the next call or question, if the script does not end here.
fn read_call(input: &mut Input) -> Result<Option<Call>, Bad>
    ensures { CallTook input.old.left input.new.left result }
{
    let Some(kind) = input.read_number(1) else {
        return Ok(None);
    };
    let call = read_arguments(input, kind).ok_or(Bad)?;
    Ok(Some(call))
}

// The records of the first n virtual registers.
fn print_records(records: &[Assignment; 512], n: u16, line: &mut [u8]) {
    for (v, record) in (0..n).zip(records) {
        let length = states::record_line(line, v, *record);
        print(line, length);
    }
}

// The entries of the table, from the first on. By number: an iterator over their lines would keep `line` lent while it is printed.
fn print_entries(loaded: LoadedJob<'_>, table: Table<'_>, line: &mut [u8]) {
    let sheet = LentSheet {
        maps: loaded.job.j64,
        table,
    };
    for i in 0..2560 {
        let Some(length) = states::entry_line(line, loaded.header, i, sheet) else {
            return;
        };
        print(line, length);
    }
}

// The whole state: records, queue, last registers, entries.
fn print_state(
    records: &[Assignment; 512],
    loaded: LoadedJob<'_>,
    state: &LentState<'_>,
    last: &[u8],
    line: &mut [u8],
) {
    let n = loaded.header.virt_regs;
    print_records(records, n, line);
    let keys = states::queue_line(line, state.queue, n);
    print(line, keys);
    let regs = states::last_line(line, last);
    print(line, regs);
    print_entries(loaded, state.as_table(), line);
}

// Makes the call of these four words, as a list of one, and prints what it answers and the state afterwards. What returns is the records afterwards.
fn make(
    list: [u64; 4],
    records: [Assignment; 512],
    loaded: LoadedJob<'_>,
    state: &mut LentState<'_>,
    last: &mut [u8],
    line: &mut [u8],
) -> [Assignment; 512]
    ensures { SameState state.old state.new }
{
    let mut numbers = [0u64; 3];
    let done = carry_out_list(records, &list, loaded, state, last, &mut numbers);
    // not met: three numbers have room for the answer of a list of one call
    let Ok(made) = done else {
        return records;
    };
    let length = answer_line(line, numbers[0], numbers[1], numbers[2]);
    print(line, length);
    print_state(&made.0, loaded, state, last, line);
    made.0
}

impl Question {
    // Asks it, and prints what is answered, if all that it needs is there.
    fn ask(
        self,
        input: &mut Input,
        loaded: LoadedJob<'_>,
        table: Table<'_>,
        line: &mut [u8],
    ) -> Result<(), Bad>
        ensures { input.new.left ≤ input.old.left }
    {
        match self {
            Question::Check {
                reg,
                segments,
                full,
            } => {
                let query = InterferenceQuery {
                    regs: loaded.job.j64,
                    count: loaded.header.regs as usize,
                    reg: reg as usize,
                    full,
                };
                let uses = from(loaded.job.j64, USES);
                let matrix = RegMatrix { table, uses };
                ask_check(input, segments, query, matrix, line).ok_or(Bad)
            }
            Question::IsUnitFree { unit, from, to } => {
                let _ = ask_unit_free(unit, from, to, table, line);
                Ok(())
            }
        }
    }
}

// Makes the calls of a script, which the input has next, on a loaded job, each followed by the state, and asks its questions, up to its end or to
// what is bad. What is left of the script never grows.
fn make_calls(
    input: &mut Input,
    loaded: LoadedJob<'_>,
    state: &mut LentState<'_>,
    last: &mut [u8],
    line: &mut [u8],
) -> Result<(), Bad>
    ensures left { input.new.left ≤ input.old.left }
    ensures same { SameState state.old state.new }
{
    let mut all = first_records();
    // a `for` is no plainer: whether a call follows is known when it is read, and reading may fail
    while let Some(call) = read_call(input)? {
        match call {
            Call::Made(asked) => {
                // tried, and not covered by the check: the call's array given straight to `all`
                let after = make(asked, all, loaded, state, last, line);
                all = after;
            }
            Call::Asked(question) => question.ask(input, loaded, state.as_table(), line)?,
        }
    }
    Ok(())
}
