//! Numbers of two bytes each, low byte first.
#![tactic(auto)]

ghost use Rattle.std.specs.Prelude.{◌≡◌, ◌*◌, ◌<◌, ◌≤◌, length, take};
ghost use Rattle.jig_numbers.specs.LittleEndian.{u16_le_all};

use record::u16_le_at;

/// The first readings in the bytes, as many as the buffer holds.
pub fn decode_readings(bytes: &[u8], readings: &mut [u16])
    requires readings_in_bounds { 2 * length readings.old ≤ length bytes.now }
    requires bytes_len_bound { length bytes.now < 1000000 }
    ensures { readings.new ≡ take (length readings.old) (u16_le_all bytes.now) }
{
    // No zip: of what is written through one a proof knows the length alone.
    for (i, reading) in readings.iter_mut().enumerate() {
        *reading = u16_le_at(bytes, 2 * i);
    }
}
