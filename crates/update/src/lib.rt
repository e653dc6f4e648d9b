//! Update: the checks of a record, and the settings that result.
#![tactic(auto)]

ghost use Rattle.std.specs.Prelude.{◌≡◌};
ghost use Rattle.checks.specs.Checks.{or_refused};
ghost use Rattle.update.specs.Update.{apply_record};

use checks::{Reason, Refusal, refuse_when};
use fields::decode;
use record::{FIELDS, end_of, u16_le_at};
use settings::Settings;

/// What an update makes of settings. Takes settings and the bytes of a record. Gives the settings with the record's fields in them: all of the record, or nothing.
/// Refused, in this order, with 2 for under two bytes, 3 for a map bit from 12 to 15, 4 for a length that isn't what the map calls for, and then for the first
/// bad field: 5 for a weight, 6 for a threshold, 7 for r, 8 for N.
/// The definition is `apply_record` in update/specs/Update.antt.
pub fn apply_record(before: Settings, bytes: &[u8]) -> Result<Settings, Refusal>
    ensures { result ≡ or_refused (apply_record before bytes.now).answer (apply_record before bytes.now).settings }
{
    let map = u16_le_at(bytes, 0);
    refuse_when(bytes.len() < 2, Reason::ShortRecord)?;
    refuse_when(map >> FIELDS != 0, Reason::UnknownField)?;
    refuse_when(bytes.len() != end_of(map), Reason::RecordLength)?;
    decode(bytes, before)
}
