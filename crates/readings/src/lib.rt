//! The range of a reading, and check 13. Why its passes share no function with those of check 14 stands in `impossible`.
#![tactic(auto)]

ghost use Rattle.std.specs.Prelude.{◌≡◌, not, ◌&&◌, length, get_or};
ghost use Rattle.laws.specs.Lists.{every};
ghost use Rattle.checks.specs.Search.{first_place};
ghost use Rattle.readings.specs.Readings.{reading_in_range};

use quarters::Quarters;

/// The largest reading.
pub const MAX_READING: u16 = 16383;

// Whether each reading is in range. A pass over numbers of another type has a fold of its own: one for all would be `fold` under another name. The largest is 2^14 - 1, so the bits of all together are at most the largest exactly where each reading is.
fn each_in_range(readings: &[u16]) -> bool
    ensures { result ≡ every reading_in_range readings.now }
{
    readings.iter().fold(0, |bits, reading| bits | *reading) <= MAX_READING
}

// The same of four parts of one length at once: one after the other takes a third more time, and no ratio of the bench may get worse.
fn four_in_range(a: &[u16], b: &[u16], c: &[u16], d: &[u16]) -> bool
    requires { (length b.now ≡ length a.now) × (length c.now ≡ length a.now) × (length d.now ≡ length a.now) }
    ensures { result ≡ (every reading_in_range a.now && every reading_in_range b.now && (every reading_in_range c.now && every reading_in_range d.now)) }
{
    let rows = a.iter().zip(b).zip(c.iter().zip(d));
    rows.fold(0, |bits, ((p, q), (s, t))| bits | (*p | *q | (*s | *t))) <= MAX_READING
}

// The same of all readings, by quarters and what is left over.
fn all_in_range(readings: &[u16]) -> bool
    ensures { result ≡ every reading_in_range readings.now }
{
    let Quarters {
        first,
        second,
        third,
        fourth,
        rest,
    } = Quarters::of(readings);
    four_in_range(first, second, third, fourth) & each_in_range(rest)
}

/// The place of the first reading above the largest.
pub fn first_above(readings: &[u16]) -> Option<usize>
    ensures { result ≡ first_place (length readings.now) (λ i. not (reading_in_range (get_or readings.now i 0))) }
{
    if all_in_range(readings) {
        None
    } else {
        readings.iter().position(|reading| *reading > MAX_READING)
    }
}
