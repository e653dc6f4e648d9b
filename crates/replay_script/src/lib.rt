//! A script of calls on a board: its lines, and what each of them says.
#![tactic(auto)]

ghost use Rattle.std.specs.Prelude.{◌≡◌, ◌==◌, ◌<◌, ◌≤◌, max, [], length, IfOk, IfSome, MatchOption};
ghost use Rattle.std.specs.List.{position};
ghost use Rattle.std.specs.Iterator.{at_most};
ghost use Rattle.replay_script.specs.Lines.{position_or_end, begins_number, word_end, line_end, NextLine, Numbered};
ghost use Rattle.replay_commands.specs.Ranges.{InRange};

use crate::numbers::read_numbers;
use replay_commands::{Command, Malformed, named};
use replay_items::Numbers;

mod numbers;

// Where a byte stands first.
fn position_of(bytes: &[u8], byte: u8) -> Option<usize>
    ensures { result ≡ position (λ b. b == byte) bytes.now }
{
    bytes.iter().position(|b| *b == byte)
}

// Where a byte stands first, or how many bytes there are if it stands nowhere: the last line has no end, and a word alone no space. An `Option` would leave that to each caller.
#[tactic(auto, using(crate::proofs::First::position_or))]
fn position_or_end(bytes: &[u8], byte: u8) -> usize
    ensures place { result ≡ position_or_end byte bytes.now }
    ensures bound { result ≤ length bytes.now }
{
    position_of(bytes, byte).unwrap_or(bytes.len())
}

// Whether a byte begins a number.
fn begins_number(byte: u8) -> bool
    ensures { result ≡ begins_number byte }
{
    byte == b'-' || byte.is_ascii_digit()
}

// Where the first number of a line begins.
fn first_number(line: &[u8]) -> Option<usize>
    ensures place { result ≡ position begins_number line.now }
    ensures bound { IfSome result (λ first. first < length line.now) }
{
    line.iter().position(|byte| begins_number(*byte))
}

// Where the word of a line ends: before the space in front of its first number. A word may have a space of its own, as in `print sums`.
fn word_end(line: &[u8]) -> usize
    ensures place { result ≡ word_end line.now }
    ensures bound { result ≤ length line.now }
{
    match first_number(line) {
        Some(first) => first.saturating_sub(1),
        None => line.len(),
    }
}

/// What a line says: a command, whose numbers go into the list, or nothing if it is empty or a comment.
pub fn said(line: &[u8], list: &mut Numbers) -> Result<Option<Command>, Malformed>
    ensures { IfOk result (λ said. IfSome said InRange) }
{
    match line {
        [] | [b'#', ..] => Ok(None),
        _ => {
            let (word, numbers) = line.split_at(word_end(line));
            read_numbers(numbers, list)?;
            Ok(Some(named(word, list.as_slice())?))
        }
    }
}

/// Where the line that begins at a place ends: in a whole script, as its definition has it, so a place stands beside the bytes.
pub fn line_end(script: &[u8], at: usize) -> usize
    ensures place { result ≡ line_end script.now at }
    ensures bounds { (at ≤ result) × (result ≤ max at (length script.now)) }
{
    match script.get(at..) {
        Some(rest) => at + position_or_end(rest, b'\n'),
        None => at,
    }
}

/// The lines of a script, each without its end. No `split` at line feeds: it gives one empty piece more after the last end, and which lines there are, `NextLine`, would be promised
/// nowhere.
#[derive(Clone, Debug, Drop, PartialEq, Eq)]
pub struct Lines<'a>(pub &'a [u8]);

impl<'a> Iterator for Lines<'a> {
    type Item = &'a [u8];

    ghost next_gives = { λ before line after. MatchOption line (before.0.now ≡ []) (λ l. NextLine before.0.now l.now after.0.now) };

    ghost remaining = { λ lines. at_most (length lines.0.now) };

    fn next(&mut self) -> Option<&'a [u8]> {
        if self.0.is_empty() {
            return None;
        }
        let (line, rest) = self.0.split_at(line_end(self.0, 0));
        self.0 = rest.get(1..).unwrap_or(rest);
        Some(line)
    }
}

/// The number of the first malformed line, counted from 1.
pub fn first_malformed(script: &[u8], list: &mut Numbers) -> Option<usize>
    ensures { Numbered script.now result }
{
    for (i, line) in Lines(script).enumerate() {
        if said(line, list).is_err() {
            return Some(i + 1);
        }
    }
    None
}
