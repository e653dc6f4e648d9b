//! The operations that are lent no buffer of a ramp: Update, Start, Drop, Covered.
#![tactic(auto)]

ghost use Rattle.std.specs.Prelude.{◌≡◌};
ghost use Rattle.operations.specs.Update.{update_of};
ghost use Rattle.operations.specs.Ramp.{start_of, drop_of};
ghost use Rattle.operations.specs.Covered.{coverage_of};

use board::Board;
use checks::{Answer, Reason, Refusal, refuse_when};

/// Update, at any time. Takes a board and the bytes of a record. Leaves the record's fields in the waiting settings, and all else as it was.
/// Refused, in this order, with 99 for a board that isn't sound, 2 for under two bytes, 3 for a map bit from 12 to 15, 4 for a length that isn't what the map
/// calls for, and then for the first bad field: 5 for a weight, 6 for a threshold, 7 for r, 8 for N. The board is then as it was.
/// The definition is `update_of` in operations/specs/Update.antt.
#[tactic(auto, unfolding(operations::specs::Update::update_of, update::specs::Update::apply_record, checks::specs::Checks::verdict))]
pub fn update(board: &mut Board, bytes: &[u8]) -> Answer
    ensures answer { result ≡ (update_of board.old bytes.now).answer }
    ensures board { board.new ≡ (update_of board.old bytes.now).board }
{
    board.check_sound()?; // 99 before 2 to 8
    board.waiting = update::apply_record(board.waiting, bytes)?;
    Ok(())
}

/// Start. Takes a board. Leaves the waiting settings in force, and a ramp running that has had no readings.
/// Refused, in this order, with 99 for a board that isn't sound and 9 while a ramp runs. The board is then as it was.
/// The definition is `start_of` in operations/specs/Ramp.antt.
#[tactic(auto, unfolding(operations::specs::Ramp::start_of, checks::specs::Checks::verdict))]
pub fn start(board: &mut Board) -> Answer
    ensures answer { result ≡ (start_of board.old).answer }
    ensures board { board.new ≡ (start_of board.old).board }
{
    board.check_sound()?; // 99 before 9
    refuse_when(board.running, Reason::RampRunning)?;
    board.in_force = board.waiting;
    board.running = true;
    board.fed = 0;
    Ok(())
}

/// Drop. Takes a board, and no sums. Leaves no ramp running and both settings as they were: the ramp ends with no frame.
/// Refused, in this order, with 99 for a board that isn't sound and 10 where no ramp runs. The board is then as it was.
/// The definition is `drop_of` in operations/specs/Ramp.antt.
#[tactic(auto, unfolding(operations::specs::Ramp::drop_of, checks::specs::Checks::verdict))]
pub fn drop(board: &mut Board) -> Answer
    ensures answer { result ≡ (drop_of board.old).answer }
    ensures board { board.new ≡ (drop_of board.old).board }
{
    board.check_sound()?; // 99 before 10
    refuse_when(!board.running, Reason::NoRamp)?;
    *board = board.ended();
    Ok(())
}

/// Covered. Takes a board, which it only reads. Says whether the settings in force are covered.
/// Refused with 99 for a board that isn't sound, and with nothing else.
/// The definition is `coverage_of` in operations/specs/Covered.antt.
#[tactic(auto, unfolding(operations::specs::Covered::coverage_of, checks::specs::Checks::verdict))]
pub fn covered(board: Board) -> Result<bool, Refusal>
    ensures { result ≡ coverage_of board }
{
    board.check_sound()?; // 99 alone
    Ok(board.in_force.is_covered())
}
