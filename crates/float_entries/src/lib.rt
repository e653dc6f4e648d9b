//! Entries that are 64-bit floats: the whole number that one stands for, and check 14. A whole number of 32 bits is told by its sum with 2^52 + 2^31, whose bits are those of 2^52 + 2^31 and
//! that number more.
#![tactic(auto)]

ghost use Rattle.std.specs.Prelude.{◌≡◌, true, false, ◌%◌, cond, ◌≤◌, pos, ◌-ℤ◌, ◌≤ℤ◌, is_nan, not, length, get_or};
ghost use Rattle.std.specs.Int.Signed.{lt_z};
ghost use Rattle.laws.specs.Lists.{every};
ghost use Rattle.checks.specs.Search.{first_place};
ghost use Rattle.settings.specs.Settings.{max_samples};
ghost use Rattle.entries.specs.Possible.{possible_after};
ghost use Rattle.engines.specs.Engine.{in_floats};
ghost use Rattle.engines.specs.SupportRange.{entry_in_range_in};
ghost use Rattle.engines.specs.SupportPasses.{possible_after_in};

use std::simd::f64x8;

// 2^52 + 2^31, and its bits.
const MIDDLE: f64 = 4503601774854144.0;

const BITS: i64 = 4841369601570766848;

// Those of `entries`, in 64 bits.
const MAX_PRODUCT: i64 = entries::MAX_PRODUCT as i64;

const MARK: i64 = entries::MARK as i64;

// The bits of the sum of 2^30, above which the marks lie.
const MARK_BITS: i64 = BITS + MARK;

// The whole number of the sum's bits: their low half counts from -2^31.
fn low_whole(bits: u64) -> i32
    ensures { result ≡ pos (bits % 4294967296) -ℤ pos 2147483648 }
{
    ((bits % 4294967296) as i64 - 2147483648) as i32
}

/// The whole number that an entry stands for.
pub fn whole_of(entry: f64) -> i32
    requires { entry_in_range_in in_floats entry ≡ true }
    ensures { result ≡ in_floats.value_of entry }
{
    low_whole((entry + MIDDLE).to_bits())
}

// Bits moved down by a gap where they are those of a mark's sum.
fn lowered(gap: i64, bits: i64) -> i64
    requires { (pos 0 ≤ℤ gap) × (gap ≤ℤ pos 1073741825) }
    ensures { result ≡ cond (lt_z (pos 4841369602644508672) bits) (bits -ℤ gap) bits }
{
    if bits > MARK_BITS { bits - gap } else { bits }
}

// Whether bits are those of the sum of an entry that is possible after k samples. As in `entries::is_possible` one range holds sums and marks. In 64 bits, as wide as a float, this is
// half of the vector code that it is in 32.
fn are_possible(k: usize, bits: i64) -> bool
    requires { k ≤ max_samples }
    ensures { result ≡ possible_after k (bits -ℤ pos 4841369601570766848) }
{
    let samples = k as i64;
    let span = samples * MAX_PRODUCT;
    let moved = lowered(MARK + samples - (128 + span), bits);
    (BITS + (128 - span) <= moved) & (moved <= BITS + (128 + span))
}

// Whether an entry that is a number is possible after k samples. -0 comes back as +0.
fn is_possible_number(k: usize, entry: f64) -> bool
    requires few { k ≤ max_samples }
    requires number { is_nan entry ≡ false }
    ensures { result ≡ possible_after_in in_floats k entry }
{
    let moved = entry + MIDDLE;
    let same = (moved - MIDDLE).to_bits() == entry.to_bits();
    same & are_possible(k, moved.to_bits().cast_signed())
}

// Whether an entry is possible after k samples.
fn is_possible(k: usize, entry: f64) -> bool
    requires { k ≤ max_samples }
    ensures { result ≡ possible_after_in in_floats k entry }
{
    !entry.is_nan() && is_possible_number(k, entry)
}

// Whether eight entries are numbers. The compiler makes no vector code of comparisons of floats, so lanes are compared by name.
fn are_numbers(entries: &[f64; 8]) -> bool
    ensures { result ≡ every (λ e. not (is_nan e)) entries.now }
{
    let lanes = f64x8::from_array(*entries);
    lanes.simd_eq(lanes).all()
}

// Whether all entries are numbers.
fn all_numbers(sums: &[f64]) -> bool
    ensures { result ≡ every (λ e. not (is_nan e)) sums.now }
{
    let (parts, rest) = sums.as_chunks::<8>();
    let in_parts = parts
        .iter()
        .fold(true, |good, part| good & are_numbers(part));
    let in_rest = rest.iter().fold(true, |good, entry| good & !entry.is_nan());
    in_parts & in_rest
}

// Whether each entry is possible, where all are numbers. With no early exit it is vector code.
fn each_possible(k: usize, sums: &[f64]) -> bool
    requires few { k ≤ max_samples }
    requires numbers { every (λ e. not (is_nan e)) sums.now ≡ true }
    ensures { result ≡ every (possible_after_in in_floats k) sums.now }
{
    let mut good = true;
    // No fold: that its entries are numbers isn't known where a fold calls it.
    for entry in sums {
        good &= is_possible_number(k, *entry);
    }
    good
}

/// The place of the first entry that isn't possible after k samples.
pub fn first_impossible(k: usize, sums: &[f64]) -> Option<usize>
    requires { (1 ≤ k) × (k ≤ max_samples) }
    ensures { result ≡ first_place (length sums.now) (λ p. not (possible_after_in in_floats k (get_or sums.now p in_floats.absent))) }
{
    if all_numbers(sums) && each_possible(k, sums) {
        None
    } else {
        sums.iter().position(|entry| !is_possible(k, *entry))
    }
}
