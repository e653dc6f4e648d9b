//! Feed. Buffers are lent one by one, each of a length of its own: a type of several would be made for one call.
#![tactic(auto)]

ghost use Rattle.std.specs.Prelude.{◌≡◌, true, length};
ghost use Rattle.checks.specs.Checks.{verdict};
ghost use Rattle.board.specs.Board.{board_area, sound};
ghost use Rattle.operations.specs.Feed.{reading_checks_in, feed_checks_in, feed_in, fed_sums_in};

use board::Board;
use checks::{Answer, Reason, refuse_at, refuse_when};
use kinds::Entry;
use ramp::write_sums;
use readings::first_above;
use written::first_impossible_written;

// 12, 13 and 14 of Feed.
#[tactic(auto, using(crate::proofs::Feedable::wanted_left), unfolding(checks::specs::Checks::verdict))]
fn check_readings<E: Entry>(board: &Board, readings: &[u16], sums: &[E]) -> Answer
    requires { (sound board.now ≡ true) × (length sums.now ≡ board_area board.now) }
    ensures { result ≡ verdict (reading_checks_in E.engine board.now readings.now sums.now) }
{
    let count = readings.len();
    refuse_when(count > board.wanted() - board.fed, Reason::TooManyReadings)?;
    refuse_at(first_above(readings), Reason::ReadingRange)?;
    let impossible = first_impossible_written(board.fed, count, sums);
    refuse_at(impossible, Reason::EntryNotPossible)
}

// The checks of Feed on a sound board, 10 to 14.
fn check_feed_sound<E: Entry>(board: &Board, readings: &[u16], sums: &[E]) -> Answer
    requires { sound board.now ≡ true }
    ensures { result ≡ verdict (feed_checks_in E.engine board.now readings.now sums.now) }
{
    board.check_running(sums.len())?;
    check_readings(board, readings, sums)
}

/// Every check of Feed, which nothing is written before.
#[tactic(auto, unfolding(checks::specs::Checks::verdict))]
pub fn check_feed<E: Entry>(board: &Board, readings: &[u16], sums: &[E]) -> Answer
    ensures { result ≡ verdict (feed_checks_in E.engine board.now readings.now sums.now) }
{
    board.check_sound()?;
    check_feed_sound(board, readings, sums)
}

/// Feed of a sound board: all of it but its first check, 99.
#[tactic(auto, unfolding(operations::specs::Feed::feed_in, operations::specs::Feed::fed_sums_in))]
pub fn feed_sound<E: Entry>(board: &mut Board, readings: &[u16], sums: &mut [E]) -> Answer
    requires { sound board.old ≡ true }
    ensures answer { result ≡ (feed_in E.engine board.old readings.now sums.old).answer }
    ensures board { board.new ≡ (feed_in E.engine board.old readings.now sums.old).board }
    ensures sums { sums.new ≡ fed_sums_in E.engine board.old readings.now sums.old }
{
    check_feed_sound(board, readings, sums)?;
    write_sums(&board.in_force, board.fed, readings, sums);
    board.fed += readings.len();
    Ok(())
}

/// Feed. Takes a board, readings and the sums. Leaves each reading accumulated into its pixel's entry, and so many more readings fed.
/// Refused, in this order, with 99 for a board that isn't sound, 10 where no ramp runs, 11 where there isn't one sum for each pixel, 12 for more readings than
/// the ramp still wants, 13 for a reading above 16,383, at its place in the readings, and 14 for an entry that the ramp has written, that gets a reading now
/// and that isn't possible, at its place in the sums. Board and sums are then as they were.
/// The definitions are `feed_in` and `fed_sums_in` in operations/specs/Feed.antt.
#[tactic(auto, unfolding(operations::specs::Feed::feed_in, operations::specs::Feed::fed_sums_in, checks::specs::Checks::verdict))]
pub fn feed<E: Entry>(board: &mut Board, readings: &[u16], sums: &mut [E]) -> Answer
    ensures answer { result ≡ (feed_in E.engine board.old readings.now sums.old).answer }
    ensures board { board.new ≡ (feed_in E.engine board.old readings.now sums.old).board }
    ensures sums { sums.new ≡ fed_sums_in E.engine board.old readings.now sums.old }
{
    board.check_sound()?;
    feed_sound(board, readings, sums)
}
