//! The range of each setting. One function for each: a caller names the setting, and one with the bounds as parameters is no plainer.
#![tactic(auto)]

ghost use Rattle.std.specs.Prelude.{◌≡◌};
ghost use Rattle.ranges.specs.Ranges.{weight_in_range, weights_in_range, threshold_in_range, truncation_in_range, samples_in_range};

// Whether a weight is from -15 to 15.
fn weight_in_range(w: i32) -> bool
    ensures { result ≡ weight_in_range w }
{
    (-15..=15).contains(&w)
}

/// Whether each of nine weights is.
pub fn weights_in_range(weights: [i32; 9]) -> bool
    ensures { result ≡ weights_in_range weights }
{
    weights.iter().all(|w| weight_in_range(*w))
}

/// Whether a threshold is from 0 to 16,383.
pub fn threshold_in_range(t: u16) -> bool
    ensures { result ≡ threshold_in_range t }
{
    t <= 16383
}

/// Whether r is from 1 to 3.
pub fn truncation_in_range(r: u16) -> bool
    ensures { result ≡ truncation_in_range r }
{
    (1..=3).contains(&r)
}

/// Whether N is from 1 to 9.
pub fn samples_in_range(n: u16) -> bool
    ensures { result ≡ samples_in_range n }
{
    (1..=9).contains(&n)
}
