//! A board in lent memory: 29 words, each a number of 64 bits with a sign, and the board that they hold.
#![tactic(auto)]

/// How many words a board takes.
pub const BOARD_LENGTH: usize = 29;

// How many of them settings take.
const SETTINGS_LENGTH: usize = 12;

mod reading;
mod writing;

pub use reading::{held, holds_board};
pub use writing::{write_board, write_fed};
