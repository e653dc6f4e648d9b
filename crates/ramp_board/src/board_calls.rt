//! The operations on a board in a lent buffer, whose content a caller need not know. A buffer that holds no board is answered 99; after any refusal it is as it was.
ghost use Rattle.std.specs.Prelude.{◌≡◌};
ghost use Rattle.checks.specs.Plain.{refusal_number, refusal_place};
ghost use Rattle.operations.specs.Update.{update_of};
ghost use Rattle.operations.specs.Ramp.{start_of, drop_of};
ghost use Rattle.engines.specs.Engine.{in_floats};
ghost use Rattle.operations.specs.Feed.{feed_in, fed_sums_in, feed_of, fed_sums};
ghost use Rattle.operations.specs.ReadOut.{read_out_in, read_out_words_in, read_out_of, read_out_words};
ghost use Rattle.operations.specs.Covered.{coverage_of};
ghost use Rattle.board_words.specs.Words.{held};
ghost use Rattle.lent_board.specs.Lent.{open_answer, opened_words, words_left};
ghost use Rattle.ramp_board.specs.Answers.{result_number, result_place};
ghost use Rattle.ramp_board.specs.BoardAnswers.{covered_after};

use checks::plain::number_and_place;
use sides::Sides;

/// Open, as `lent_board::open`: it leaves a board that was just opened in the buffer, whatever that held. Refused, in this order, with 99 for a buffer of another length, and 1.
#[unsafe(no_mangle)]
pub extern "C" fn ramp_open(
    board: &mut [i64],
    width: usize,
    height: usize,
    binned: bool,
    place: &mut usize,
) -> u8
    ensures number { result ≡ refusal_number (open_answer board.old width height binned) }
    ensures place { place.new ≡ refusal_place (open_answer board.old width height binned) }
    ensures board { board.new ≡ opened_words board.old width height binned }
{
    let sides = Sides {
        width,
        height,
        binned,
    };
    number_and_place(lent_board::open(board, sides), place)
}

/// Update, as `lent_board::update`, refused in the order 99, 2, 3, 4, then 5 to 8 for the first bad field.
#[unsafe(no_mangle)]
pub extern "C" fn ramp_update(board: &mut [i64], record: &[u8], place: &mut usize) -> u8
    ensures number { result ≡ refusal_number (update_of (held board.old) «record».now).answer }
    ensures place { place.new ≡ refusal_place (update_of (held board.old) «record».now).answer }
    ensures board { board.new ≡ words_left (update_of (held board.old) «record».now) board.old }
{
    number_and_place(lent_board::update(board, record), place)
}

/// Start, as `lent_board::start`, refused in the order 99, 9.
#[unsafe(no_mangle)]
pub extern "C" fn ramp_start(board: &mut [i64], place: &mut usize) -> u8
    ensures number { result ≡ refusal_number (start_of (held board.old)).answer }
    ensures place { place.new ≡ refusal_place (start_of (held board.old)).answer }
    ensures board { board.new ≡ words_left (start_of (held board.old)) board.old }
{
    number_and_place(lent_board::start(board), place)
}

/// Feed, as `lent_board::feed`: it leaves the readings summed up in the sums. Refused in the order 99, 10, 11, 12, 13, 14; the sums are then as they were, too.
#[unsafe(no_mangle)]
pub extern "C" fn ramp_feed(
    board: &mut [i64],
    readings: &[u16],
    sums: &mut [i32],
    place: &mut usize,
) -> u8
    ensures number { result ≡ refusal_number (feed_of (held board.old) readings.now sums.old).answer }
    ensures place { place.new ≡ refusal_place (feed_of (held board.old) readings.now sums.old).answer }
    ensures board { board.new ≡ words_left (feed_of (held board.old) readings.now sums.old) board.old }
    ensures sums { sums.new ≡ fed_sums (held board.old) readings.now sums.old }
{
    number_and_place(lent_board::feed(board, readings, sums), place)
}

/// Read out, as `lent_board::read_out`: it leaves the frame of the sums in the words. Refused in the order 99, 10, 11, 15, 16, 14; the words are then as they were, too.
#[unsafe(no_mangle)]
pub extern "C" fn ramp_read_out(
    board: &mut [i64],
    sums: &[i32],
    words: &mut [u16],
    place: &mut usize,
) -> u8
    ensures number { result ≡ refusal_number (read_out_of (held board.old) sums.now words.old).answer }
    ensures place { place.new ≡ refusal_place (read_out_of (held board.old) sums.now words.old).answer }
    ensures board { board.new ≡ words_left (read_out_of (held board.old) sums.now words.old) board.old }
    ensures words { words.new ≡ read_out_words (held board.old) sums.now words.old }
{
    number_and_place(lent_board::read_out(board, sums, words), place)
}

/// Feed with the sums in 64-bit floats, refused as `ramp_feed`.
#[unsafe(no_mangle)]
pub extern "C" fn ramp_feed_floats(
    board: &mut [i64],
    readings: &[u16],
    floats: &mut [f64],
    place: &mut usize,
) -> u8
    ensures number { result ≡ refusal_number (feed_in in_floats (held board.old) readings.now floats.old).answer }
    ensures place { place.new ≡ refusal_place (feed_in in_floats (held board.old) readings.now floats.old).answer }
    ensures board { board.new ≡ words_left (feed_in in_floats (held board.old) readings.now floats.old) board.old }
    ensures sums { floats.new ≡ fed_sums_in in_floats (held board.old) readings.now floats.old }
{
    number_and_place(lent_board::feed(board, readings, floats), place)
}

/// Read out with the sums in 64-bit floats, refused as `ramp_read_out`.
#[unsafe(no_mangle)]
pub extern "C" fn ramp_read_out_floats(
    board: &mut [i64],
    floats: &[f64],
    words: &mut [u16],
    place: &mut usize,
) -> u8
    ensures number { result ≡ refusal_number (read_out_in in_floats (held board.old) floats.now words.old).answer }
    ensures place { place.new ≡ refusal_place (read_out_in in_floats (held board.old) floats.now words.old).answer }
    ensures board { board.new ≡ words_left (read_out_in in_floats (held board.old) floats.now words.old) board.old }
    ensures words { words.new ≡ read_out_words_in in_floats (held board.old) floats.now words.old }
{
    number_and_place(lent_board::read_out(board, floats, words), place)
}

/// Drop, as `lent_board::drop`, refused in the order 99, 10.
#[unsafe(no_mangle)]
pub extern "C" fn ramp_drop(board: &mut [i64], place: &mut usize) -> u8
    ensures number { result ≡ refusal_number (drop_of (held board.old)).answer }
    ensures place { place.new ≡ refusal_place (drop_of (held board.old)).answer }
    ensures board { board.new ≡ words_left (drop_of (held board.old)) board.old }
{
    number_and_place(lent_board::drop(board), place)
}

/// Covered, as `lent_board::covered`: it leaves 1 in `covered` where the settings in force are covered, else 0. Refused with 99; `covered` is then as it was.
#[unsafe(no_mangle)]
pub extern "C" fn ramp_covered(board: &[i64], covered: &mut u8, place: &mut usize) -> u8
    ensures number { result ≡ result_number (coverage_of (held board.now)) }
    ensures place { place.new ≡ result_place (coverage_of (held board.now)) }
    ensures covered { covered.new ≡ covered_after (coverage_of (held board.now)) covered.old }
{
    match lent_board::covered(board) {
        Ok(yes) => {
            *covered = yes.into();
            number_and_place(Ok(()), place)
        }
        Err(refusal) => number_and_place(Err(refusal), place),
    }
}
