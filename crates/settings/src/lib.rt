//! The settings of a ramp board, whether they are in range, and the covered question.
#![tactic(auto)]

ghost use Rattle.std.specs.Prelude.{◌≡◌};
ghost use Rattle.settings.specs.Settings as Def;

mod covered;
mod in_range;

#[derive(Clone, Copy, Debug, PartialEq, Eq)]
pub struct Settings {
    /// The weights of samples 1 to 9.
    pub weights: [i32; 9],
    /// A reading above it marks its entry.
    pub threshold: u16,
    /// r: a word is the sum divided by 2^r.
    pub truncation: u16,
    /// N: how many samples a ramp has.
    pub samples: u16,
}

impl Settings {
    /// The defaults: -4 to 4 for the weights, the largest threshold at which they are covered, r = 2 and N = 9.
    pub const WEIGHTS: [i32; 9] = [-4, -3, -2, -1, 0, 1, 2, 3, 4];

    pub const THRESHOLD: u16 = 13087;

    pub const TRUNCATION: u16 = 2;

    pub const SAMPLES: u16 = 9;

    /// The settings at opening.
    pub fn defaults() -> Settings
        ensures { result ≡ Def.defaults }
    {
        Settings {
            weights: Settings::WEIGHTS,
            threshold: Settings::THRESHOLD,
            truncation: Settings::TRUNCATION,
            samples: Settings::SAMPLES,
        }
    }
}
