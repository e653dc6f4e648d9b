//! The jig: a job comes in on standard input, and its frame goes out as text, or the number of its refusal.
#![tactic(auto)]

ghost use Rattle.std.specs.Prelude.{◌≡◌, ◌+◌, ◌≤◌, length, IfOk};
ghost use Rattle.jig_job.specs.Kept.{capacity};
ghost use Rattle.jig_report.specs.Text.{text_of};

use arrayvec::ArrayVec;
use console::Failure;
use jig_input::Input;
use jig_report::ROOM;
use std::io::Read;
use std::process::ExitCode;
use std::rt::Env;

const HELP: &str = "\
usage: jig < JOB

JOB: the width and the height, two bytes each, low byte first; 1 for squares of four pixels, else 0; the length of an update record, one byte; the
record; and the readings of the ramp, two bytes each, low byte first, row by row, sample after sample. Printed is a line for each word of the
frame, or `refused` and a number. README.md and docs/REFUSALS.md say more.
";

// Reads as much of the input as can matter, and answers how many bytes that is. A function of its own, so that its `requires` ties the buffer's length to
// `capacity`.
fn kept_of(input: &mut impl Read, buffer: &mut [u8]) -> Result<usize, Failure>
    requires { length buffer.old ≡ capacity }
    ensures { IfOk result (λ count. count ≤ length buffer.new) }
{
    console::read(input, buffer)
}

// Reads what is left of the input, and answers how many bytes that is.
fn drained(input: &mut impl Read) -> Result<usize, Failure>
    ensures { IfOk result (λ total. total ≤ 17592186044416) }
{
    let mut total = 0;
    // The bound only makes the loop end, near 2^44 bytes.
    for _turn in 0..u32::MAX {
        let mut part = [0; 4096];
        let count = console::read(input, &mut part)?;
        total += count;
        if count < part.len() {
            break;
        }
    }
    Ok(total)
}

// How many bytes follow those that are kept: none where there is room for more, since the input has ended.
fn rest_of(kept: usize, input: &mut impl Read) -> Result<usize, Failure>
    ensures { IfOk result (λ rest. rest ≤ 17592186044416) }
{
    if kept < jig_job::CAPACITY {
        Ok(0)
    } else {
        drained(input)
    }
}

// The text for an input, of which the first bytes are kept and the rest are counted.
fn answer(kept: &[u8], rest: usize, text: &mut ArrayVec<u8, ROOM>)
    requires kept_bound { length kept.now ≤ capacity }
    requires rest_bound { rest ≤ 17592186044416 }
    ensures { text.new.items ≡ text_of kept.now (length kept.now + rest) }
{
    let input = Input {
        kept,
        total: kept.len() + rest,
    };
    jig_report::write_text(input, text);
}

// Prints the text for what comes in.
fn print_frame(rt: &impl Print, input: &mut impl Read) -> Result<(), Failure> {
    let mut buffer = [0; jig_job::CAPACITY];
    let mut text = ArrayVec::new();
    let count = kept_of(input, &mut buffer)?;
    answer(&buffer[..count], rest_of(count, input)?, &mut text);
    rt.write_all(&text)?;
    Ok(())
}

// Prints how the jig is used if that is asked for, and else the text for what comes in.
fn run(help: Result<bool, Failure>, rt: &impl Print, input: &mut impl Read) -> Result<(), Failure> {
    if help? {
        rt.print(HELP)?;
        Ok(())
    } else {
        print_frame(rt, input)
    }
}

fn main(rt: HostRuntime) -> ExitCode {
    let mut argument = [0; 6];
    let help = console::wants_help(rt.arg(1, &mut argument), &argument);
    console::end(&rt, "jig", run(help, &rt, &mut rt.stdin()))
}
