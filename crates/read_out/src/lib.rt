//! Read out. Buffers are lent one by one, each of a length of its own: a type of several would be made for one call.
#![tactic(auto)]

ghost use Rattle.std.specs.Prelude.{◌≡◌, ◌*◌, true};
ghost use Rattle.checks.specs.Checks.{verdict};
ghost use Rattle.encoding.specs.Frame.{word_count};
ghost use Rattle.sides.specs.Sides.{of_sides};
ghost use Rattle.board.specs.Board.{sound};
ghost use Rattle.operations.specs.ReadOut.{output_checks_in, read_out_checks_in, read_out_in, read_out_words_in};

use board::Board;
use checks::{Answer, Reason, refuse_at, refuse_when};
use kinds::Entry;
use layout::write_frame;
use sides::Sides;

/// How many words a frame has: one for each pixel, or each square; 0 for sides that Open doesn't take, as `Sides::area` has it.
pub fn word_count(sides: Sides) -> usize
    ensures { result ≡ of_sides sides.width sides.height sides.binned (word_count sides.binned (sides.width * sides.height)) }
{
    if sides.binned {
        sides.area() / 4
    } else {
        sides.area()
    }
}

// The checks of Read out itself, in their order: 15, 16 and 14.
#[tactic(auto, using(crate::proofs::Readable::of_sound), unfolding(checks::specs::Checks::verdict))]
fn check_output<E: Entry>(board: &Board, sums: &[E], words: usize) -> Answer
    requires { sound board.now ≡ true }
    ensures { result ≡ verdict (output_checks_in E.engine board.now sums.now words) }
{
    refuse_when(board.fed < board.wanted(), Reason::ReadingsWanted)?;
    refuse_when(words != word_count(board.sides), Reason::WordsLength)?;
    let impossible = E::first_impossible(board.in_force.samples.into(), sums);
    refuse_at(impossible, Reason::EntryNotPossible)
}

fn check_read_out<E: Entry>(board: &Board, sums: &[E], words: &[u16]) -> Answer
    ensures { result ≡ verdict (read_out_checks_in E.engine board.now sums.now words.now) }
{
    board.check_ramp(sums.len())?;
    check_output(board, sums, words.len())
}

/// Read out. Takes a board, the sums and an output. Leaves the frame of the sums in the output and no ramp running; the sums are only read.
/// Refused, in this order, with 99 for a board that isn't sound, 10 where no ramp runs, 11 where there isn't one sum for each pixel, 15 while the ramp wants
/// readings, 16 for an output that isn't one word for each pixel, or each square if binned, and 14 for an entry that isn't possible after N samples, at its
/// place in the sums. Board and output are then as they were.
/// The definitions are `read_out_in` and `read_out_words_in` in operations/specs/ReadOut.antt.
#[tactic(auto, unfolding(operations::specs::ReadOut::read_out_in, operations::specs::ReadOut::read_out_words_in))]
pub fn read_out<E: Entry>(board: &mut Board, sums: &[E], words: &mut [u16]) -> Answer
    ensures answer { result ≡ (read_out_in E.engine board.old sums.now words.old).answer }
    ensures board { board.new ≡ (read_out_in E.engine board.old sums.now words.old).board }
    ensures words { words.new ≡ read_out_words_in E.engine board.old sums.now words.old }
{
    check_read_out(board, sums, words)?;
    write_frame(board.sides, board.in_force.truncation, sums, words);
    *board = board.ended();
    Ok(())
}
