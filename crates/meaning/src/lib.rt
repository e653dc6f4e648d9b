//! Read a word: what it means, and whether it is a flag.
#![tactic(auto)]

ghost use Rattle.std.specs.Prelude.{◌≡◌, ◌≤◌};
ghost use Rattle.meaning.specs.Meaning.{meaning, read_word, is_flag};

use checks::{Reason, Refusal, refuse_when};
use ranges::truncation_in_range;
use word_codes::{FIRST_SATURATED, LAST_SATURATED, NEGATIVE_CODE, ORDINARY_END};

/// What a word means: the limits of its sum, or a flag.
#[derive(Clone, Copy, Debug, PartialEq)]
pub enum WordRead {
    Ordinary { low: f64, high: f64 },
    Saturated(u16),
    Negative,
    Unassigned,
}

// What a word means with an r from 1 to 3.
#[tactic(auto, unfolding(crate::specs::Meaning::meaning))]
fn meaning_of(truncation: u16, word: u16) -> WordRead
    requires { truncation ≤ 3 }
    ensures { result ≡ meaning truncation word }
{
    match word {
        0..ORDINARY_END => {
            let step = 1u32 << truncation;
            let low = u32::from(word) * step;
            WordRead::Ordinary {
                low: f64::from(low),
                high: f64::from(low + step),
            }
        }
        FIRST_SATURATED..=LAST_SATURATED => WordRead::Saturated(word - ORDINARY_END),
        NEGATIVE_CODE => WordRead::Negative,
        _ => WordRead::Unassigned,
    }
}

/// Read a word. Takes an r and a word. Gives the two limits of its sum, or saturated and the sample, or negative, or unassigned.
/// Refused with 7 for an r outside 1 to 3.
/// The definition is `read_word` in `specs/Meaning.antt`.
#[tactic(auto, unfolding(crate::specs::Meaning::read_word))]
pub fn read_word(truncation: u16, word: u16) -> Result<WordRead, Refusal>
    ensures { result ≡ read_word truncation word }
{
    refuse_when(!truncation_in_range(truncation), Reason::TruncationRange)?;
    Ok(meaning_of(truncation, word))
}

/// Whether a word means saturated or negative.
#[tactic(auto, unfolding(crate::specs::Meaning::is_flag))]
pub fn is_flag(word: u16) -> bool
    ensures { result ≡ is_flag word }
{
    matches!(word, FIRST_SATURATED..=LAST_SATURATED | NEGATIVE_CODE)
}
