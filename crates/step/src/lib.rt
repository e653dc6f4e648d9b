//! What one reading does to one entry. The ranges of both, and of a weight, a threshold and a sample's number, stand in each contract: they are plain numbers of lent slices
//! and of the settings, and a type for one would be made anew at each element.
#![tactic(auto)]

ghost use Rattle.std.specs.Prelude.{◌≡◌, true, cond, ◌<◌, pos, ◌*ℤ◌};
ghost use Rattle.settings.specs.Settings.{weight_in_range, threshold_in_range};
ghost use Rattle.readings.specs.Readings.{reading_in_range};
ghost use Rattle.entries.specs.SupportRange.{entry_in_range};
ghost use Rattle.step.specs.Step.{SampleInRange, is_above, pedestal_or_stored, sum_or_mark, step_by};

use entries::MARK;

/// A sample of a ramp: its number, counted from 1, its weight, and the threshold that its readings are held against.
#[derive(Clone, Copy, Debug, PartialEq, Eq)]
pub struct Sample {
    pub n: usize,
    pub weight: i32,
    pub threshold: u16,
}

// A number below 32,768 as a signed one of 16 bits, which are cheaper to multiply and to compare. A `TryFrom` would ask each reading.
fn signed(n: u16) -> i16
    requires { n < 32768 }
    ensures { result ≡ pos n }
{
    n as i16
}

// Multiply: weight * reading. The magnitude, in eight bits, is multiplied and then takes the sign, so that the compiler sees two small numbers and makes a loop for
// each sign.
fn multiply(weight: i32, reading: u16) -> i32
    requires weight_value { weight_in_range weight ≡ true }
    requires reading_value { reading_in_range reading ≡ true }
    ensures { result ≡ weight *ℤ pos reading }
{
    let size = i32::from(weight.unsigned_abs() as u8) * i32::from(signed(reading));
    if weight < 0 { -size } else { size }
}

// What sample n adds to its product: 128 at sample 1, at which the entry isn't read, else the stored sum.
fn pedestal_or_stored(n: usize, stored: &i32) -> i32
    ensures { result ≡ pedestal_or_stored n stored.now }
{
    if n == 1 { 128 } else { *stored }
}

// Whether a reading is above the threshold.
fn is_above(threshold: u16, reading: u16) -> bool
    requires reading_value { reading_in_range reading ≡ true }
    requires threshold_value { threshold_in_range threshold ≡ true }
    ensures { result ≡ is_above threshold reading }
{
    signed(reading) > signed(threshold)
}

// One of two numbers, both at hand: no step hangs on the test.
fn pick(test: bool, yes: i32, no: i32) -> i32
    ensures { result ≡ cond test yes no }
{
    if test { yes } else { no }
}

// What is stored: a marked entry stays, a reading above the threshold stores its mark, any other stores the sum. `above` is a value too, and no step.
fn sum_or_mark(addend: i32, above: bool, mark: i32, sum: i32) -> i32
    ensures { result ≡ sum_or_mark addend above mark sum }
{
    pick(addend > MARK, addend, pick(above, mark, sum))
}

/// One reading of a sample, in the order of section 2.3 of the Description: multiply, add 128 or the stored sum, store.
pub fn accumulate(sample: Sample, reading: u16, stored: &mut i32)
    requires sample_value { SampleInRange sample }
    requires reading_value { reading_in_range reading ≡ true }
    requires stored_value { 1 < sample.n → entry_in_range stored.old ≡ true }
    ensures { stored.new ≡ step_by sample reading stored.old }
{
    let n = sample.n;
    let product = multiply(sample.weight, reading);
    let addend = pedestal_or_stored(n, stored);
    let sum = product + addend;
    // n is at most nine; the library has no `From` of a `usize` for an `i32`.
    let mark = MARK + n as i32;
    *stored = sum_or_mark(addend, is_above(sample.threshold, reading), mark, sum);
}
