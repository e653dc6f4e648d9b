//! An entry of the sums: a sum, or a mark in its place.
#![tactic(auto)]

ghost use Rattle.std.specs.Prelude.{◌≡◌, cond, ◌≤◌, pos, ◌-ℤ◌, ◌≤ℤ◌};
ghost use Rattle.settings.specs.Settings.{max_samples};
ghost use Rattle.entries.specs.Mark.{marked};
ghost use Rattle.entries.specs.Possible.{possible_after};

/// The mark of sample n is this and n more.
pub const MARK: i32 = 1073741824;

/// The largest weight times the largest reading.
pub const MAX_PRODUCT: i32 = 245745;

/// A mark moved down by a gap; a sum stays.
pub fn lowered(gap: i32, entry: i32) -> i32
    requires { (pos 0 ≤ℤ gap) × (gap ≤ℤ pos 1073741825) }
    ensures { result ≡ cond (marked entry) (entry -ℤ gap) entry }
{
    if entry > MARK { entry - gap } else { entry }
}

/// Whether an entry is possible after k samples. With the mark of sample k moved down to the highest sum, one range holds sums and marks; with the
/// lowest sum moved to the lowest number, one test tells the range. k is N, or a count of samples: its bound stands in each contract, since each
/// caller has the number at hand, and a type for it would be made at the call and taken apart in it.
pub fn is_possible(k: usize, entry: i32) -> bool
    requires { k ≤ max_samples }
    ensures { result ≡ possible_after k entry }
{
    // k is at most nine; the library has no `From` of a `usize` for an `i32`.
    let samples = k as i32;
    let span = samples * MAX_PRODUCT;
    let moved = lowered(MARK + samples - (128 + span), entry);
    let lowest = i32::MIN.wrapping_add(span - 128);
    moved.wrapping_add(lowest) <= i32::MIN + 2 * span
}
