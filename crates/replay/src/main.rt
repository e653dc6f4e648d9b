//! The replay: a script of calls comes in on standard input; each call's answer, the board it leaves and each frame go out as text.
#![tactic(auto)]

use crate::player::Player;
use console::Failure;
use replay_items::Numbers;
use replay_script::{Lines, first_malformed};
use std::fmt;
use std::io::Read;
use std::process::ExitCode;
use std::rt::Env;

mod buffers;
mod player;
mod show;

const HELP: &str = "\
usage: replay < SCRIPT

SCRIPT: text, a command on each line. Printed is what each command is answered, with the board that a call leaves and each frame; or only
`malformed line` and a number, or `script too long`. docs/REPLAY.md has the commands and the answers.
";

// The longest script.
const LONGEST: usize = 262144;

// Room for it, and for one byte more, which a script that is too long fills.
const ROOM: usize = LONGEST + 1;

// What a script is answered. It is printed as one text, so it goes out by way of the library's one buffer.
#[derive(Clone, Copy)]
struct Replayed<'a>(&'a [u8]);

impl fmt::Display for Replayed<'_> {
    fn fmt<W: fmt::Write>(&self, f: &mut fmt::Formatter<W>) -> fmt::Result {
        if self.0.len() > LONGEST {
            writeln!(f, "script too long")
        } else {
            replay(f, self.0)
        }
    }
}

// Every line is read before the first is played.
fn replay(out: &mut impl fmt::Write, script: &[u8]) -> fmt::Result {
    let mut list = Numbers::new();
    match first_malformed(script, &mut list) {
        Some(line) => writeln!(out, "malformed line {line}"),
        None => play(out, script, &mut list),
    }
}

// Plays the lines one after the other.
fn play(out: &mut impl fmt::Write, script: &[u8], list: &mut Numbers) -> fmt::Result {
    let mut player = Player::new();
    for line in Lines(script) {
        player.play(out, line, list)?;
    }
    Ok(())
}

// Reads a script, and prints what it is answered.
fn print_replay(rt: &impl Print, input: &mut impl Read) -> Result<(), Failure> {
    let mut buffer = [0; ROOM];
    let count = console::read(input, &mut buffer)?;
    rt.print(Replayed(&buffer[..count]))?;
    Ok(())
}

// Prints how the replay is used if that is asked for, and else what the script that comes in is answered.
fn run(help: Result<bool, Failure>, rt: &impl Print, input: &mut impl Read) -> Result<(), Failure> {
    if help? {
        rt.print(HELP)?;
        Ok(())
    } else {
        print_replay(rt, input)
    }
}

fn main(rt: HostRuntime) -> ExitCode {
    let mut argument = [0; 6];
    let help = console::wants_help(rt.arg(1, &mut argument), &argument);
    console::end(&rt, "replay", run(help, &rt, &mut rt.stdin()))
}
