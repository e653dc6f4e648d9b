//! The input of a job: its sides, and its checks.
#![tactic(auto)]

ghost use Rattle.std.specs.Prelude.{◌≡◌};
ghost use Rattle.checks.specs.Checks.{or_refused};
ghost use Rattle.jig_input.specs.Checks.{opened_by};
ghost use Rattle.jig_input.specs.Input.{width_of, height_of, is_binned, readings_at};

use board::Board;
use checks::{Reason, Refusal, refuse_when};
use record::{byte, u16_le_at};
use sides::Sides;

/// The most pixels of a job.
pub const PIXELS: usize = 1024;

/// An input: its first bytes, as many as can matter, and how many bytes it has in all.
#[derive(Clone, Copy, Debug, PartialEq, Eq)]
pub struct Input<'a> {
    pub kept: &'a [u8],
    pub total: usize,
}

impl Input<'_> {
    /// The sides that it names.
    pub fn sides(self) -> Sides
        ensures { result ≡ record { width = width_of self.entry.kept.now; height = height_of self.entry.kept.now; binned = is_binned self.entry.kept.now } }
    {
        Sides {
            width: usize::from(u16_le_at(self.kept, 0)),
            height: usize::from(u16_le_at(self.kept, 2)),
            binned: byte(self.kept, 4) == 1,
        }
    }

    /// Where the readings start: after six bytes and the record, whose length byte 5 tells.
    pub fn readings_at(self) -> usize
        ensures { result ≡ readings_at self.entry.kept.now }
    {
        6 + usize::from(byte(self.kept, 5))
    }

    /// Open, for the sides that it names. It takes an input, and gives the board, or the first refusal: 17, then 1, then 18.
    /// `opened_by` of specs/Checks says so.
    #[tactic(auto, using(crate::proofs::Checking::taken_few, checks::proofs::Laws::first_taken), unfolding(checks::specs::Checks::verdict, board::specs::Open::open_of))]
    pub fn open(self) -> Result<Board, Refusal>
        ensures { let o = opened_by self.entry.kept.now self.entry.total in result ≡ or_refused o.answer o.board }
    {
        let sides = self.sides();
        let start = self.readings_at();
        refuse_when(self.total < 6, Reason::BadInput)?;
        refuse_when(byte(self.kept, 4) > 1, Reason::BadInput)?;
        refuse_when(self.total < start, Reason::BadInput)?;
        refuse_when((self.total - start) % 2 == 1, Reason::BadInput)?;
        let board = Board::open(sides)?;
        refuse_when(sides.width * sides.height > PIXELS, Reason::TooManyPixels)?;
        Ok(board)
    }
}
