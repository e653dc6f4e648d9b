//! Settings that are in range.
ghost use Rattle.std.specs.Prelude.{◌≡◌};
ghost use Rattle.settings.specs.Settings.{in_range};

use crate::Settings;
use ranges::{samples_in_range, threshold_in_range, truncation_in_range, weights_in_range};

impl Settings {
    /// Whether every setting is one that an update could leave.
    #[tactic(auto, unfolding(crate::specs::Settings::in_range))]
    pub fn in_range(self) -> bool
        ensures { result ≡ in_range self }
    {
        weights_in_range(self.weights)
            && threshold_in_range(self.threshold)
            && truncation_in_range(self.truncation)
            && samples_in_range(self.samples)
    }
}
