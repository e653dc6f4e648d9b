//! Open.
ghost use Rattle.std.specs.Prelude.{◌≡◌};
ghost use Rattle.checks.specs.Checks.{or_refused};
ghost use Rattle.board.specs.Board as Def;
ghost use Rattle.board.specs.Open.{no_board, open_of};

use crate::Board;
use checks::{Reason, Refusal, refuse_when};
use settings::Settings;
use sides::Sides;

impl Board {
    // A board that was just opened.
    fn opened(sides: Sides) -> Board
        ensures { result ≡ Def.opened sides.width sides.height sides.binned }
    {
        let defaults = Settings::defaults();
        Board {
            sides,
            waiting: defaults,
            in_force: defaults,
            running: false,
            fed: 0,
        }
    }

    /// What stands for a board where none was opened: its sides are 0, so it isn't sound, and every operation on it answers 99.
    /// The definition is `no_board` in board/specs/Open.antt.
    pub fn none() -> Board
        ensures { result ≡ no_board }
    {
        Board::opened(Sides {
            width: 0,
            height: 0,
            binned: false,
        })
    }

    /// Open. Takes sides, and whether the board is binned. Gives a board with the defaults waiting and in force, and no ramp.
    /// Refused with 1 for a side that is 0 or above 1,024, or an odd side of a binned board; no board results.
    /// The definition is `open_of` in board/specs/Open.antt.
    #[tactic(auto, unfolding(crate::specs::Open::open_of, checks::specs::Checks::verdict))]
    pub fn open(sides: Sides) -> Result<Board, Refusal>
        ensures { let opening = open_of sides.width sides.height sides.binned in result ≡ or_refused opening.answer opening.board }
    {
        refuse_when(!sides.are_taken(), Reason::BadSides)?;
        Ok(Board::opened(sides))
    }
}
