//! The operations on a board in lent memory. Each is the operation itself, on the board that the words hold. Words that hold no board are answered 99, as a board that isn't sound.
#![tactic(auto)]

ghost use Rattle.std.specs.Prelude.{◌≡◌, not};
ghost use Rattle.checks.specs.declared.Reason.TheVariants.{UnsoundBoard};
ghost use Rattle.checks.specs.Checks.{when};
ghost use Rattle.operations.specs.Update.{update_of};
ghost use Rattle.operations.specs.Ramp.{start_of, drop_of};
ghost use Rattle.operations.specs.Feed.{feed_in, fed_sums_in};
ghost use Rattle.operations.specs.ReadOut.{read_out_in, read_out_words_in};
ghost use Rattle.operations.specs.Covered.{coverage_of};
ghost use Rattle.board_words.specs.Words.{holds_board, held};
ghost use Rattle.lent_board.specs.Lent.{open_answer, opened_words, words_left};

use board::Board;
use board_words::{BOARD_LENGTH, held, holds_board, write_board, write_fed};
use checks::{Answer, Reason, Refusal, refuse_when};
use feed::feed_sound;
use kinds::Entry;
use sides::Sides;

// 99 where the words hold no board, as of a board that isn't sound.
#[inline(always)]
fn check_held(words: &[i64]) -> Answer
    ensures { result ≡ when (not (holds_board words.now)) UnsoundBoard }
{
    refuse_when(!holds_board(words), Reason::UnsoundBoard)
}

/// Open. Takes words, whatever they hold, and sides. Leaves a board that was just opened in the words.
/// Refused, in this order, with 99 where the words aren't as many as a board takes, and 1. The words are then as they were.
/// The definitions are `open_answer` and `opened_words` in specs/Lent.antt.
#[tactic(auto, unfolding(crate::specs::Lent::open_answer, crate::specs::Lent::opened_words, checks::specs::Checks::verdict))]
pub fn open(words: &mut [i64], sides: Sides) -> Answer
    ensures answer { result ≡ open_answer words.old sides.width sides.height sides.binned }
    ensures board { words.new ≡ opened_words words.old sides.width sides.height sides.binned }
{
    refuse_when(words.len() != BOARD_LENGTH, Reason::UnsoundBoard)?;
    write_board(Board::open(sides)?, words);
    Ok(())
}

/// Update, as `control::update`, on the board that the words hold.
/// Takes the words of a board and the bytes of a record. Leaves the words of the updated board.
/// Refused, in this order, with 99, 2 to 8. All is then as it was.
/// The definitions are `update_of` in operations/specs/Update.antt, and `words_left` in specs/Lent.antt.
pub fn update(words: &mut [i64], bytes: &[u8]) -> Answer
    ensures answer { result ≡ (update_of (held words.old) bytes.now).answer }
    ensures board { words.new ≡ words_left (update_of (held words.old) bytes.now) words.old }
{
    check_held(words)?;
    let mut board = held(words);
    control::update(&mut board, bytes)?;
    write_board(board, words);
    Ok(())
}

/// Start, as `control::start`, on the board that the words hold.
/// Takes the words of a board. Leaves those of the board with a ramp that has had no readings.
/// Refused, in this order, with 99, 9. All is then as it was.
/// The definitions are `start_of` in operations/specs/Ramp.antt, and `words_left` in specs/Lent.antt.
pub fn start(words: &mut [i64]) -> Answer
    ensures answer { result ≡ (start_of (held words.old)).answer }
    ensures board { words.new ≡ words_left (start_of (held words.old)) words.old }
{
    check_held(words)?;
    let mut board = held(words);
    control::start(&mut board)?;
    write_board(board, words);
    Ok(())
}

/// Feed, as `feed::feed`, on the board that the words hold, with sums of either kind.
/// Takes the words of a board, readings and the sums. Leaves the readings summed up in the sums, and the words of a board that was fed so many more.
/// Refused, in this order, with 99, 10 to 14. All is then as it was.
/// The definitions are `feed_in` and `fed_sums_in` in operations/specs/Feed.antt, and `words_left` in specs/Lent.antt.
pub fn feed<E: Entry>(words: &mut [i64], readings: &[u16], sums: &mut [E]) -> Answer
    ensures answer { result ≡ (feed_in E.engine (held words.old) readings.now sums.old).answer }
    ensures board { words.new ≡ words_left (feed_in E.engine (held words.old) readings.now sums.old) words.old }
    ensures sums { sums.new ≡ fed_sums_in E.engine (held words.old) readings.now sums.old }
{
    check_held(words)?;
    let mut board = held(words);
    // Asked here, where its words are at hand, and not again in Feed.
    board.check_sound()?;
    feed_sound(&mut board, readings, sums)?;
    write_fed(board.fed, words);
    Ok(())
}

/// Read out, as `read_out::read_out`, on the board that the words hold, with sums of either kind.
/// Takes the words of a board, the sums and an output. Leaves the frame in the output, and the words of a board with no ramp.
/// Refused, in this order, with 99, 10, 11, 15, 16, 14. All is then as it was.
/// The definitions are `read_out_in` and `read_out_words_in` in operations/specs/ReadOut.antt, and `words_left` in specs/Lent.antt.
pub fn read_out<E: Entry>(words: &mut [i64], sums: &[E], output: &mut [u16]) -> Answer
    ensures answer { result ≡ (read_out_in E.engine (held words.old) sums.now output.old).answer }
    ensures board { words.new ≡ words_left (read_out_in E.engine (held words.old) sums.now output.old) words.old }
    ensures output { output.new ≡ read_out_words_in E.engine (held words.old) sums.now output.old }
{
    check_held(words)?;
    let mut board = held(words);
    read_out::read_out(&mut board, sums, output)?;
    write_board(board, words);
    Ok(())
}

/// Drop, as `control::drop`, on the board that the words hold.
/// Takes the words of a board. Leaves those of the board with no ramp.
/// Refused, in this order, with 99, 10. All is then as it was.
/// The definitions are `drop_of` in operations/specs/Ramp.antt, and `words_left` in specs/Lent.antt.
pub fn drop(words: &mut [i64]) -> Answer
    ensures answer { result ≡ (drop_of (held words.old)).answer }
    ensures board { words.new ≡ words_left (drop_of (held words.old)) words.old }
{
    check_held(words)?;
    let mut board = held(words);
    control::drop(&mut board)?;
    write_board(board, words);
    Ok(())
}

/// Covered, as `control::covered`, on the board that the words hold, which it only reads. Refused with 99.
/// The definition is `coverage_of` in operations/specs/Covered.antt.
pub fn covered(words: &[i64]) -> Result<bool, Refusal>
    ensures { result ≡ coverage_of (held words.now) }
{
    check_held(words)?;
    control::covered(held(words))
}
