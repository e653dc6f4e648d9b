//! The covered question.
ghost use Rattle.std.specs.Prelude.{◌≡◌, ◌*◌, ◌^◌, ◌≤◌};
ghost use Rattle.settings.specs.Settings.{weight_at};
ghost use Rattle.settings.specs.Covered.{positive_part, positives, is_covered};

use crate::Settings;
use word_codes::ORDINARY_END;

// A positive weight, or 0 for any other.
fn positive_part(w: i32) -> u64
    ensures { result ≡ positive_part w }
{
    u64::try_from(w).unwrap_or(0)
}

impl Settings {
    /// The weight of sample n, counted from 1; 0 where there is no such sample: it can't fail, and a 0 adds nothing. One call of the library, from 1 on.
    pub fn weight(self, n: usize) -> i32
        ensures { result ≡ weight_at self n }
    {
        if n == 0 {
            0
        } else {
            self.weights.get(n - 1).copied().unwrap_or(0)
        }
    }

    // The total of the positive weights among the first n.
    fn positive_total(self, n: usize) -> u64
        requires { n ≤ 65535 }
        ensures exact { result ≡ positives self n }
        ensures bound { result ≤ n * 2 ^ 31 }
    {
        let mut total: u64 = 0;
        for i in 0..n {
            total += positive_part(self.weight(i + 1));
        }
        total
    }

    /// Whether no readings at or below the threshold make a sum of 32,752 * 2^r or more.
    pub fn is_covered(self) -> bool
        ensures { result ≡ is_covered self }
    {
        let r = self.truncation;
        let total = self.positive_total(self.samples.into());
        let reach = 128 + total * u64::from(self.threshold);
        // 32,752 * 2^49 is above every reach.
        r >= 49 || reach < u64::from(ORDINARY_END) << r
    }
}
