//! The board that words hold.
ghost use Rattle.std.specs.Prelude.{◌≡◌, ◌≤◌, ◌<◌, true, length};
ghost use Rattle.board_words.specs.Words.{board_length, settings_length, truth_fits, count_fits, weight_fits, short_fits, settings_fit, first_fit, board_fits, word_at, truth_in, count_in, settings_in, holds_board, held};

use crate::{BOARD_LENGTH, SETTINGS_LENGTH};
use board::Board;
use settings::Settings;
use sides::Sides;
use std::array;

// A word, 0 past the end.
fn word_at(words: &[i64], i: usize) -> i64
    ensures { result ≡ word_at words.now i }
{
    words.get(i).copied().unwrap_or(0)
}

// Whether a word fits: its field can have it. One function for each kind of field.
fn truth_fits(word: i64) -> bool
    ensures { result ≡ truth_fits word }
{
    word == 0 || word == 1
}

fn count_fits(word: i64) -> bool
    ensures { result ≡ count_fits word }
{
    word >= 0
}

fn short_fits(word: i64) -> bool
    ensures { result ≡ short_fits word }
{
    u16::try_from(word).is_ok()
}

fn weight_fits(word: i64) -> bool
    ensures { result ≡ weight_fits word }
{
    i32::try_from(word).is_ok()
}

// Whether every word of settings fits. With no early exit it is vector code.
#[tactic(auto, unfolding(crate::specs::Words::settings_fit))]
fn settings_fit(words: &[i64]) -> bool
    requires { length words.now ≡ settings_length }
    ensures { result ≡ settings_fit words.now }
{
    let (weights, rest) = words.split_at(9);
    let nine = weights
        .iter()
        .fold(true, |good, word| good & weight_fits(*word));
    let three = rest
        .iter()
        .fold(true, |good, word| good & short_fits(*word));
    nine & three
}

// Whether the first five words of a board fit.
#[tactic(auto, unfolding(crate::specs::Words::first_fit))]
fn first_fit(words: &[i64]) -> bool
    ensures { result ≡ first_fit words.now }
{
    count_fits(word_at(words, 0))
        && count_fits(word_at(words, 1))
        && truth_fits(word_at(words, 2))
        && truth_fits(word_at(words, 3))
        && count_fits(word_at(words, 4))
}

// Whether every word of a board fits.
#[tactic(auto, unfolding(crate::specs::Words::board_fits))]
fn board_fits(words: &[i64]) -> bool
    requires { length words.now ≡ board_length }
    ensures { result ≡ board_fits words.now }
{
    let (first, settings) = words.split_at(5);
    let (waiting, in_force) = settings.split_at(SETTINGS_LENGTH);
    first_fit(first) && settings_fit(waiting) && settings_fit(in_force)
}

// What a word says that fits: a truth value, and a number that isn't negative.
fn truth_in(word: i64) -> bool
    ensures { result ≡ truth_in word }
{
    word == 1
}

fn count_in(word: i64) -> usize
    ensures { result ≡ count_in word }
{
    usize::try_from(word).unwrap_or(0)
}

// Weight i + 1 of settings.
fn weight_in(words: &[i64], i: usize) -> i32
    requires { (length words.now ≡ settings_length) × (settings_fit words.now ≡ true) × (i < 9) }
    ensures { result ≡ word_at words.now i }
{
    words[i] as i32
}

// The threshold, r or N of settings, word i of theirs.
fn short_in(words: &[i64], i: usize) -> u16
    requires { (length words.now ≡ settings_length) × (settings_fit words.now ≡ true) × (9 ≤ i) × (i < 12) }
    ensures { result ≡ count_in (word_at words.now i) }
{
    words[i] as u16
}

// The settings of words that fit.
fn settings_in(words: &[i64]) -> Settings
    requires { (length words.now ≡ settings_length) × (settings_fit words.now ≡ true) }
    ensures { result ≡ settings_in words.now }
{
    Settings {
        weights: array::from_fn(|i| weight_in(words, i)),
        threshold: short_in(words, 9),
        truncation: short_in(words, 10),
        samples: short_in(words, 11),
    }
}

/// Whether words hold a board.
#[inline(always)]
#[tactic(auto, unfolding(crate::specs::Words::holds_board))]
pub fn holds_board(words: &[i64]) -> bool
    ensures { result ≡ holds_board words.now }
{
    words.len() == BOARD_LENGTH && board_fits(words)
}

/// The board that words hold. `holds_board` asks whether they hold one.
#[inline(always)]
pub fn held(words: &[i64]) -> Board
    requires { holds_board words.now ≡ true }
    ensures { result ≡ held words.now }
{
    let (first, settings) = words.split_at(5);
    let (waiting, in_force) = settings.split_at(SETTINGS_LENGTH);
    Board {
        sides: Sides {
            width: count_in(word_at(first, 0)),
            height: count_in(word_at(first, 1)),
            binned: truth_in(word_at(first, 2)),
        },
        waiting: settings_in(waiting),
        in_force: settings_in(in_force),
        running: truth_in(word_at(first, 3)),
        fed: count_in(word_at(first, 4)),
    }
}
