//! Why a call is refused, and the checks that an operation makes.
#![tactic(auto)]

ghost use Rattle.std.specs.Prelude.{◌≡◌};
ghost use Rattle.checks.specs.Checks as Def;
ghost use Rattle.checks.specs.Plain as Plain;

pub mod plain;

/// Each reason has the number that document 01 names for it.
#[derive(Clone, Copy, Debug, PartialEq, Eq)]
pub enum Reason {
    /// A side that is 0 or above 1,024, or an odd one of a binned board.
    BadSides = 1,
    /// An update record under two bytes.
    ShortRecord = 2,
    /// An update map with a bit set that has no field.
    UnknownField = 3,
    /// An update record whose length isn't what its map calls for.
    RecordLength = 4,
    WeightRange = 5,
    ThresholdRange = 6,
    TruncationRange = 7,
    SamplesRange = 8,
    RampRunning = 9,
    NoRamp = 10,
    /// Sums that aren't one for each pixel.
    SumsLength = 11,
    TooManyReadings = 12,
    ReadingRange = 13,
    /// An entry that isn't possible after the samples that its pixel has had.
    EntryNotPossible = 14,
    /// A ramp that still wants readings.
    ReadingsWanted = 15,
    /// Words that aren't one for each pixel, or each square, of a frame.
    WordsLength = 16,
    /// Bytes that are no job of the jig.
    BadInput = 17,
    /// A job of more than 1,024 pixels.
    TooManyPixels = 18,
    /// Sides, a place or a box that no frame of words has.
    OutsideFrame = 19,
    UnsoundBoard = 99,
}

/// A refusal has a reason and a place.
#[derive(Clone, Copy, Debug, PartialEq, Eq)]
pub struct Refusal {
    pub reason: Reason,
    pub place: usize,
}

/// What an operation answers: it is taken, or refused.
pub type Answer = Result<(), Refusal>;

impl Reason {
    /// The reason's number. No `From`: which number it is stands in the name.
    pub fn number(self) -> u8
        ensures { result ≡ Plain.number self }
    {
        self as u8
    }
}

/// Refused for a reason, at place 0, if the test holds: what an operation asks, and no switch.
pub fn refuse_when(test: bool, reason: Reason) -> Answer
    ensures { result ≡ Def.when test reason }
{
    if test {
        Err(Refusal { reason, place: 0 })
    } else {
        Ok(())
    }
}

/// Refused for a reason, at the place that was found.
pub fn refuse_at(found: Option<usize>, reason: Reason) -> Answer
    ensures { result ≡ Def.found found reason }
{
    match found {
        Some(place) => Err(Refusal { reason, place }),
        None => Ok(()),
    }
}
