//! What a frame begins with: a board is opened, updated and started.
#![tactic(auto)]

ghost use Rattle.std.specs.Prelude.{◌≡◌};
ghost use Rattle.checks.specs.Checks.{or_refused};
ghost use Rattle.board.specs.Open.{open_of};
ghost use Rattle.begin.specs.Begin.{begin_on, begin_of};

use board::Board;
use checks::{Answer, Refusal};
use control::{start, update};
use sides::Sides;

/// Update and Start of a board that was opened. It takes the board and a record, and gives the board that the two leave, or the first refusal: 99 and 2 to 8 of Update, 9 of Start.
/// `begin_on` of specs/Begin says so.
#[tactic(auto, unfolding(checks::specs::Checks::verdict))]
pub fn begin_on(opened: Board, record: &[u8]) -> Result<Board, Refusal>
    ensures { let b = begin_on opened «record».now in result ≡ or_refused b.answer b.board }
{
    let mut board = opened;
    update(&mut board, record)?;
    start(&mut board)?;
    Ok(board)
}

// What Open answers, and what stands for the board then.
#[tactic(auto, unfolding(board::specs::Open::open_of))]
fn opening(sides: Sides) -> (Answer, Board)
    ensures answer { result.0 ≡ (open_of sides.width sides.height sides.binned).answer }
    ensures board { result.1 ≡ (open_of sides.width sides.height sides.binned).board }
{
    match Board::open(sides) {
        Ok(board) => (Ok(()), board),
        Err(refusal) => (Err(refusal), Board::none()),
    }
}

/// Open, Update and Start, each on what the one before left. It takes the sides and a record, and gives the first refusal of the three, and the board that they leave, after a
/// refusal as well: a refused Open leaves `Board::none`, and after a refused Update the ramp is started under the settings that were waiting.
/// `begin_of` of specs/Begin says so.
#[tactic(auto, unfolding(checks::specs::Checks::verdict))]
pub fn begun(sides: Sides, record: &[u8]) -> (Answer, Board)
    ensures answer { result.0 ≡ (begin_of sides.width sides.height sides.binned «record».now).answer }
    ensures board { result.1 ≡ (begin_of sides.width sides.height sides.binned «record».now).board }
{
    let (opening, mut board) = opening(sides);
    let updating = update(&mut board, record);
    let starting = start(&mut board);
    (opening.and(updating).and(starting), board)
}

/// Open, Update and Start. It takes the sides and a record, and gives the board that the three leave, or the first refusal: 1 of Open, then as `begin_on`.
/// `begin_of` of specs/Begin says so.
#[tactic(auto, unfolding(checks::specs::Checks::verdict))]
pub fn begin(sides: Sides, record: &[u8]) -> Result<Board, Refusal>
    ensures { let b = begin_of sides.width sides.height sides.binned «record».now in result ≡ or_refused b.answer b.board }
{
    begin_on(Board::open(sides)?, record)
}
