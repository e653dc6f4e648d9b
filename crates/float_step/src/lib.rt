//! What one reading does to one entry that is a 64-bit float: the product and the sum are those of 64-bit floats. The compiler makes no vector code where what changes from
//! entry to entry is cast to a float, or where floats are compared: a reading's float is made of its bits, and the sign of a difference is asked.
#![tactic(auto)]

ghost use Rattle.std.specs.Prelude.{◌≡◌, true, false, cond, ◌+◌, ◌^◌, ◌<◌, pos, eqb, is_nan};
ghost use Rattle.std.specs.Float.{binary64, is_sign_negative};
ghost use Rattle.std.specs.Float.Ieee.{sub};
ghost use Rattle.settings.specs.Covered.{pedestal};
ghost use Rattle.readings.specs.Readings.{reading_in_range};
ghost use Rattle.step.specs.Step.{SampleInRange};
ghost use Rattle.engines.specs.Engine.{in_floats};
ghost use Rattle.engines.specs.SupportRange.{entry_in_range_in};
ghost use Rattle.engines.specs.SupportPasses.{step_by_in};

use entries::MARK;
use step::Sample;

const PEDESTAL: f64 = 128.0;

// 2^52. The bits after its own are those of the next whole numbers.
const SHIFT: u64 = 4503599627370496;

// The float of a number that is 2^52 more.
fn raised(shift_bits: u64, n: u16) -> f64
    requires { shift_bits ≡ 4841369599423283200 }
    ensures { result ≡ in_floats.entry_of (pos (2 ^ 52 + n)) }
{
    f64::from_bits(shift_bits + u64::from(n))
}

// Whether x - y has the sign -: x is below y, where neither is so large that the difference is no number.
fn is_below(x: f64, y: f64) -> bool
    requires { is_nan (sub binary64 x y) ≡ false }
    ensures { result ≡ is_sign_negative (sub binary64 x y) }
{
    (x - y).is_sign_negative()
}

// What sample n adds to its product: 128 at sample 1, at which the entry isn't read, else the stored sum.
fn pedestal_or_stored(n: usize, stored: &f64) -> f64
    ensures { result ≡ cond (eqb n 1) (in_floats.entry_of (pos pedestal)) stored.now }
{
    if n == 1 { PEDESTAL } else { *stored }
}

// One of two numbers, both at hand: no step hangs on the test.
fn pick(test: bool, yes: f64, no: f64) -> f64
    ensures { result ≡ cond test yes no }
{
    if test { yes } else { no }
}

/// One reading of a sample, in the order of section 2.3 of the Description: multiply, add 128 or the stored sum, store.
pub fn accumulate(sample: Sample, reading: u16, stored: &mut f64)
    requires sample_value { SampleInRange sample }
    requires reading_value { reading_in_range reading ≡ true }
    requires stored_value { 1 < sample.n → entry_in_range_in in_floats stored.old ≡ true }
    ensures { stored.new ≡ step_by_in in_floats sample reading stored.old }
{
    let n = sample.n;
    // By casts, whose results a loop keeps in registers. It would read constants from memory at each entry.
    let shift = SHIFT as f64;
    let mark_base = f64::from(MARK);
    let shift_bits = shift.to_bits();
    let raised_reading = raised(shift_bits, reading);
    let x = raised_reading - shift;
    // A product of 0 and a negative number is -0; no sum is.
    let product = f64::from(sample.weight) * x;
    let addend = pedestal_or_stored(n, stored);
    let sum = product + addend;
    // n is at most nine; the library has no `From` of a `usize` for an `i32`.
    let mark = f64::from(MARK + n as i32);
    let above = is_below(raised(shift_bits, sample.threshold), raised_reading);
    // A marked entry stays, a reading above the threshold stores its mark, any other stores the sum.
    *stored = pick(is_below(mark_base, addend), addend, pick(above, mark, sum));
}
