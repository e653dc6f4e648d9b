//! Read a word. What an answer doesn't tell is left as it was.
ghost use Rattle.std.specs.Prelude.{◌≡◌};
ghost use Rattle.meaning.specs.Meaning.{read_word};
ghost use Rattle.ramp_board.specs.Answers.{result_number, result_place};
ghost use Rattle.ramp_board.specs.WordAnswers.{kind_after, low_after, high_after, sample_after};

use checks::plain::number_and_place;
use meaning::{WordRead, read_word};

/// Read a word, as `meaning::read_word`: it leaves in `kind` 0 for an ordinary word, and its limits in `low` and `high`; 1 for a saturated one, and the sample in `sample`; 2 for a negative
/// one; 3 for an unassigned one. Refused with 7: all four are then as they were. The definitions are `read_word` of meaning/specs/Meaning.antt, and specs/WordAnswers.antt.
#[unsafe(no_mangle)]
pub extern "C" fn ramp_read_word(
    truncation: u16,
    word: u16,
    kind: &mut u8,
    low: &mut f64,
    high: &mut f64,
    sample: &mut u16,
    place: &mut usize,
) -> u8
    ensures number { result ≡ result_number (read_word truncation word) }
    ensures place { place.new ≡ result_place (read_word truncation word) }
    ensures kind { kind.new ≡ kind_after (read_word truncation word) kind.old }
    ensures low { low.new ≡ low_after (read_word truncation word) low.old }
    ensures high { high.new ≡ high_after (read_word truncation word) high.old }
    ensures sample { sample.new ≡ sample_after (read_word truncation word) sample.old }
{
    match read_word(truncation, word) {
        Ok(
            WordRead::Ordinary {
                low: from,
                high: to,
            },
        ) => {
            *kind = 0;
            *low = from;
            *high = to;
            number_and_place(Ok(()), place)
        }
        Ok(WordRead::Saturated(n)) => {
            *kind = 1;
            *sample = n;
            number_and_place(Ok(()), place)
        }
        Ok(WordRead::Negative) => {
            *kind = 2;
            number_and_place(Ok(()), place)
        }
        Ok(WordRead::Unassigned) => {
            *kind = 3;
            number_and_place(Ok(()), place)
        }
        Err(refusal) => number_and_place(Err(refusal), place),
    }
}
