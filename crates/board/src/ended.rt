//! A ramp that ends.
ghost use Rattle.std.specs.Prelude.{◌≡◌};
ghost use Rattle.board.specs.Board as Def;

use crate::Board;

impl Board {
    /// The ramp ends, and all else is kept. No operation: Read out and Drop, which end with it, refuse before.
    pub fn ended(self) -> Board
        ensures { result ≡ Def.ended self }
    {
        Board {
            running: false,
            fed: 0,
            ..self
        }
    }
}
