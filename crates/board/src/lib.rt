//! A ramp board: its sides, its settings and the ramp that runs.
#![tactic(auto)]

use settings::Settings;
use sides::Sides;

mod ended;
mod open;
mod sound;

#[derive(Clone, Copy, Debug, PartialEq, Eq)]
pub struct Board {
    pub sides: Sides,
    /// what updates change
    pub waiting: Settings,
    /// what a ramp runs by: Start copies them from the waiting ones
    pub in_force: Settings,
    /// whether a ramp runs, beside how many readings it was fed: a board that isn't sound can have some while none runs
    pub running: bool,
    pub fed: usize,
}
