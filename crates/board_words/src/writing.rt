//! The words of a board.
ghost use Rattle.std.specs.Prelude.{◌≡◌, ◌<◌, ◌^◌, true, [], ◌∷◌, length, set, pos};
ghost use Rattle.settings.specs.Settings.{weight_at};
ghost use Rattle.board.specs.Board.{sound};
ghost use Rattle.board_words.specs.Words.{board_length, settings_length, truth_word, words_of_settings, words_of};

use crate::SETTINGS_LENGTH;
use board::Board;
use settings::Settings;
use std::array;

// The word of a weight.
fn weight_word(settings: Settings, n: usize) -> i64
    ensures { result ≡ weight_at settings n }
{
    settings.weight(n).into()
}

// Writes the words of settings.
fn write_settings(settings: Settings, words: &mut [i64])
    requires { length words.old ≡ settings_length }
    ensures { words.new ≡ words_of_settings settings }
{
    let (weights, rest) = words.split_at_mut(9);
    let nine: [i64; 9] = array::from_fn(|i| weight_word(settings, i + 1));
    weights.copy_from_slice(&nine);
    let three: [i64; 3] = [
        settings.threshold.into(),
        settings.truncation.into(),
        settings.samples.into(),
    ];
    rest.copy_from_slice(&three);
}

// 0 for no, 1 for yes.
fn truth_word(flag: bool) -> i64
    ensures { result ≡ truth_word flag }
{
    flag.into()
}

// The words of a board that are none of its settings'.
fn words_of_first(board: Board) -> [i64; 5]
    requires { sound board ≡ true }
    ensures { result ≡ (pos board.sides.width ∷ pos board.sides.height ∷ truth_word board.sides.binned ∷ truth_word board.running ∷ pos board.fed ∷ []) }
{
    [
        board.sides.width as i64,
        board.sides.height as i64,
        truth_word(board.sides.binned),
        truth_word(board.running),
        board.fed as i64,
    ]
}

/// Writes the words of a sound board.
pub fn write_board(board: Board, words: &mut [i64])
    requires { (length words.old ≡ board_length) × (sound board ≡ true) }
    ensures { words.new ≡ words_of board }
{
    let (first, settings) = words.split_at_mut(5);
    let (waiting, in_force) = settings.split_at_mut(SETTINGS_LENGTH);
    first.copy_from_slice(&words_of_first(board));
    write_settings(board.waiting, waiting);
    write_settings(board.in_force, in_force);
}

/// Writes how many readings are fed, and nothing else.
pub fn write_fed(fed: usize, words: &mut [i64])
    requires { (length words.old ≡ board_length) × (fed < 2 ^ 63) }
    ensures { words.new ≡ set words.old 4 (pos fed) }
{
    words[4] = fed as i64;
}
