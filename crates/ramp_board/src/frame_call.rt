//! A whole frame in one call, on a board of its own.
ghost use Rattle.std.specs.Prelude.{◌≡◌};
ghost use Rattle.checks.specs.Plain.{refusal_number, refusal_place};
ghost use Rattle.whole_frame.specs.Chain.{frame_answer, frame_sums, frame_words};

use checks::plain::number_and_place;
use sides::Sides;
use whole_frame::frame_of;

/// A whole frame, as `whole_frame::frame_of`: it leaves the sums, and the frame in the words.
/// Refused in the order of Open, Update, Start, Feed and Read out: 1, 2 to 8, 11, 12, 13, 15, 16. `frame_answer`, `frame_sums` and `frame_words` of whole_frame/specs/Chain say so.
#[unsafe(no_mangle)]
pub extern "C" fn ramp_frame(
    width: usize,
    height: usize,
    binned: bool,
    record: &[u8],
    readings: &[u16],
    sums: &mut [i32],
    words: &mut [u16],
    place: &mut usize,
) -> u8
    ensures number { result ≡ refusal_number (frame_answer width height binned «record».now readings.now sums.old words.old) }
    ensures place { place.new ≡ refusal_place (frame_answer width height binned «record».now readings.now sums.old words.old) }
    ensures sums { sums.new ≡ frame_sums width height binned «record».now readings.now sums.old words.old }
    ensures words { words.new ≡ frame_words width height binned «record».now readings.now sums.old words.old }
{
    let sides = Sides {
        width,
        height,
        binned,
    };
    number_and_place(frame_of(sides, record, readings, sums, words), place)
}
