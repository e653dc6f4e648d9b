//! What both programs share: their one argument, reading the standard input to its end, and how a program ends.
#![tactic(auto)]

ghost use Rattle.std.specs.Prelude.{◌≡◌, ◌<◌, length, take, Some, IfOk, IfErr};
ghost use Rattle.std.specs.Io.KnownBytes.{Consumes, IsAtEnd};
ghost use Rattle.std.specs.Io.{ReadsAtMost};
ghost use Rattle.std.specs.Process.{exit_status};
ghost use Rattle.console.specs.Ends.{asked, failure_status, failure_text, status_of};
ghost use Rattle.console.specs.declared.Failure.TheVariants.{Input, Output};

use std::env::FillError;
use std::io::{Eprint, Read};
use std::process::ExitCode;
use std::{fmt, io};

/// What a program can't do its work with: an argument that it doesn't know, or a stream that failed.
#[derive(Clone, Copy, Debug, PartialEq, Eq)]
pub enum Failure {
    Argument,
    Input,
    Output,
}

impl Failure {
    // The exit status of a program that ends with it.
    fn status(self) -> u8
        ensures { result ≡ failure_status self }
    {
        match self {
            Failure::Argument => 2,
            Failure::Input | Failure::Output => 1,
        }
    }
}

impl fmt::Display for Failure {
    ghost output = { λ failure. Some (failure_text failure) };

    fn fmt<W: fmt::Write>(&self, f: &mut fmt::Formatter<W>) -> fmt::Result {
        f.write_str(match *self {
            Failure::Argument => "the only argument is --help",
            Failure::Input => "standard input can't be read",
            Failure::Output => "standard output can't be written",
        })
    }
}

/// Of the calls that fail with an error of the library, the programs make those that print; `read` says itself that the input failed.
impl From<io::Error> for Failure {
    ghost from_gives = { λ _ failure. failure ≡ Output };

    fn from(_error: io::Error) -> Self {
        Self::Output
    }
}

/// Whether a program's first argument asks for help, by how a buffer for it was filled, and the buffer. `--help` is the only argument that there is.
pub fn wants_help(filled: Result<usize, FillError>, buffer: &[u8; 6]) -> Result<bool, Failure>
    ensures { result ≡ asked filled buffer.now }
{
    match filled {
        Ok(6) if buffer == b"--help" => Ok(true),
        Err(FillError::NotPresent) => Ok(false),
        _ => Err(Failure::Argument),
    }
}

/// Reads until the buffer is full or the input ends, and answers how many bytes were read: they stand in front, and fewer than the buffer holds are the last ones.
pub fn read<R: Read>(input: &mut R, buffer: &mut [u8]) -> Result<usize, Failure>
    ensures count { ReadsAtMost result buffer.new }
    ensures bytes { IfOk result (λ count. Consumes (R.remaining input.old) (R.remaining input.new) (take count buffer.new)) }
    ensures end { IfOk result (λ count. count < length buffer.new → IsAtEnd (R.remaining input.new)) }
    ensures stream { IfErr result (λ failure. failure ≡ Input) }
{
    let mut count = 0;
    while count < buffer.len() {
        match input.read(&mut buffer[count..]) {
            Ok(0) => return Ok(count),
            Ok(more) => count += more,
            Err(_) => return Err(Failure::Input),
        }
    }
    Ok(count)
}

/// The exit status of a program: 0, 1 where a stream failed, or 2 for an argument that it doesn't know. Of a failure one line on standard error says which.
pub fn end(rt: &impl Eprint, program: &str, outcome: Result<(), Failure>) -> ExitCode
    ensures { exit_status result ≡ status_of outcome }
{
    let Err(failure) = outcome else {
        return ExitCode::from(0);
    };
    // Nothing can be said where standard error fails too.
    let _ = eprintln!(rt; "{program}: {failure}");
    ExitCode::from(failure.status())
}
