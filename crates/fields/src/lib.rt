//! The fields of a record: each is checked, and written into the settings.
#![tactic(auto)]

ghost use Rattle.std.specs.Prelude.{◌≡◌};
ghost use Rattle.checks.specs.Checks.{verdict, or_refused};
ghost use Rattle.record.specs.Record.{field_of};
ghost use Rattle.fields.specs.Fields.{check_of, field_checks, with_field, resulting};

use checks::{Answer, Reason, Refusal, refuse_when};
use ranges::{samples_in_range, threshold_in_range, truncation_in_range};
use record::{FIELDS, Field, bit_set, u16_le_at, weight_of};
use settings::Settings;

// Whether a field takes a number.
fn check(field: Field, number: u16) -> Answer
    ensures { result ≡ check_of field number }
{
    match field {
        Field::Weight(_) => refuse_when(number > 31, Reason::WeightRange),
        Field::Threshold => refuse_when(!threshold_in_range(number), Reason::ThresholdRange),
        Field::Truncation => refuse_when(!truncation_in_range(number), Reason::TruncationRange),
        Field::Samples => refuse_when(!samples_in_range(number), Reason::SamplesRange),
    }
}

// The settings with the field of a bit written. The bit and not the field: a weight's place is below nine as `of_bit` gives it.
fn with_field(bit: usize, number: u16, before: Settings) -> Settings
    ensures { result ≡ with_field (field_of bit) number before }
{
    let mut settings = before;
    match Field::of_bit(bit) {
        Field::Weight(i) => settings.weights[i] = weight_of(number),
        Field::Threshold => settings.threshold = number,
        Field::Truncation => settings.truncation = number,
        Field::Samples => settings.samples = number,
    }
    settings
}

/// Each field whose bit is set in the map, in bit order, checked and written into the settings, whatever the checks say: what it gives is the refusal of the first bad one.
pub fn write_fields(bytes: &[u8], settings: &mut Settings) -> Answer
    ensures answer { result ≡ verdict (field_checks bytes.now) }
    ensures settings { settings.new ≡ resulting bytes.now settings.old }
{
    let map = u16_le_at(bytes, 0);
    let mut answer = Ok(());
    let mut at = 2;
    for bit in 0..FIELDS {
        if bit_set(map, bit) {
            let field = Field::of_bit(bit);
            let number = field.number_at(bytes, at);
            answer = answer.and(check(field, number));
            *settings = with_field(bit, number, *settings);
            at += field.size();
        }
    }
    answer
}

/// The settings with each field whose bit is set in the map written, or the refusal of the first bad one.
pub fn decode(bytes: &[u8], before: Settings) -> Result<Settings, Refusal>
    ensures { result ≡ or_refused (verdict (field_checks bytes.now)) (resulting bytes.now before) }
{
    let mut settings = before;
    write_fields(bytes, &mut settings)?;
    Ok(settings)
}
