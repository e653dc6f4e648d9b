//! A whole frame in one call. Buffers are lent one by one, each of a length of its own: a type of several would be made for one call.
#![tactic(auto)]

ghost use Rattle.std.specs.Prelude.{◌≡◌};
ghost use Rattle.whole_frame.specs.Chain.{frame_answer_on, frame_sums_on, frame_words_on, frame_answer, frame_sums, frame_words};

use begin::begin;
use board::Board;
use checks::{Answer, Reason, refuse_when};
use feed::check_feed;
use layout::write_frame;
use ramp::write_sums;
use read_out::word_count;
use sides::Sides;

// The checks of Feed and of a Read out after it, on a ramp with nothing fed. Read out's 14 would find nothing: what Feed leaves is possible.
fn check(board: &Board, readings: &[u16], sums: &[i32], words: &[u16]) -> Answer
    requires { board.now.fed ≡ 0 }
    ensures { result ≡ frame_answer_on board.now readings.now sums.now words.now }
{
    check_feed(board, readings, sums)?;
    refuse_when(readings.len() < board.wanted(), Reason::ReadingsWanted)?;
    refuse_when(words.len() != word_count(board.sides), Reason::WordsLength)
}

/// The frame of a board that was begun: Feed of all readings, then Read out.
/// It takes the readings, and buffers for the sums and the words; it leaves the sums and the frame in them. It gives the refusal of Feed, 99 and 10 to 14, or else of Read out, 15 and 16.
/// Every check comes first, and once: a refusal leaves both buffers as they were.
/// `frame_answer_on`, `frame_sums_on` and `frame_words_on` of specs/Chain say so.
pub fn frame_on(board: Board, readings: &[u16], sums: &mut [i32], words: &mut [u16]) -> Answer
    requires { board.fed ≡ 0 }
    ensures answer { result ≡ frame_answer_on board readings.now sums.old words.old }
    ensures sums { sums.new ≡ frame_sums_on board readings.now sums.old words.old }
    ensures words { words.new ≡ frame_words_on board readings.now sums.old words.old }
{
    check(&board, readings, sums, words)?;
    let settings = board.in_force;
    write_sums(&settings, board.fed, readings, sums);
    write_frame(board.sides, settings.truncation, sums, words);
    Ok(())
}

/// A whole frame: Open, Update, Start, Feed of all readings and Read out.
/// It takes the sides, a record, the readings, and buffers for the sums and the words; it leaves the sums and the frame in them. It gives the first refusal of the five, in their order;
/// a refusal, whichever operation's, leaves both buffers as they were.
/// `frame_answer`, `frame_sums` and `frame_words` of specs/Chain say so.
pub fn frame_of(
    sides: Sides,
    record: &[u8],
    readings: &[u16],
    sums: &mut [i32],
    words: &mut [u16],
) -> Answer
    ensures answer { result ≡ frame_answer sides.width sides.height sides.binned «record».now readings.now sums.old words.old }
    ensures sums { sums.new ≡ frame_sums sides.width sides.height sides.binned «record».now readings.now sums.old words.old }
    ensures words { words.new ≡ frame_words sides.width sides.height sides.binned «record».now readings.now sums.old words.old }
{
    let board = begin(sides, record)?;
    frame_on(board, readings, sums, words)
}
