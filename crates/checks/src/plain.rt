//! An answer as plain numbers, since C takes numbers, and a place to put one into.
ghost use Rattle.std.specs.Prelude.{◌≡◌};
ghost use Rattle.checks.specs.Plain.{refusal_number, refusal_place};

use crate::Answer;

/// The refusal's number, 0 if there is none, and its place.
pub fn number_and_place(answer: Answer, place: &mut usize) -> u8
    ensures number { result ≡ refusal_number answer }
    ensures place { place.new ≡ refusal_place answer }
{
    match answer {
        Ok(()) => {
            *place = 0;
            0
        }
        Err(refusal) => {
            *place = refusal.place;
            refusal.reason.number()
        }
    }
}
