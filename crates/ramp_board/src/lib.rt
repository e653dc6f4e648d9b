//! What C, Rust and Python call. Each function gives the refusal's number, 0 if there is none, and leaves its place, 0 if there is none, in `place`.
//! C knows no `Board`, no `Sides` and no `Result`: a board is lent words, and numbers come and go one by one.
#![tactic(auto)]

pub mod board_calls;
pub mod flag_calls;
pub mod frame_call;
pub mod word_call;
