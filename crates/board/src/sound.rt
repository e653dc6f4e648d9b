//! Which boards are sound, and the checks that operations begin with.
ghost use Rattle.std.specs.Prelude.{◌≡◌, true};
ghost use Rattle.checks.specs.Checks.{verdict};
ghost use Rattle.board.specs.Board as Def;
ghost use Rattle.board.specs.Board.{of_taken_sides, unsound};
ghost use Rattle.board.specs.RampChecks.{ramp_checks};

use crate::Board;
use checks::{Answer, Reason, refuse_when};

impl Board {
    /// How many readings the ramp wants in all; 0 for sides that Open doesn't take, as `Sides::area` has it. No operation: it refuses nothing.
    pub fn wanted(&self) -> usize
        ensures { result ≡ of_taken_sides self.now (Def.wanted self.now) }
    {
        usize::from(self.in_force.samples) * self.sides.area()
    }

    #[inline(always)]
    #[tactic(auto, unfolding(crate::specs::Board::sound))]
    pub fn sound(&self) -> bool
        ensures { result ≡ Def.sound self.now }
    {
        self.sides.are_taken()
            && self.waiting.in_range()
            && self.in_force.in_range()
            && self.fed <= self.wanted()
            && (self.running || self.fed == 0)
    }

    /// The check that every operation begins with.
    #[inline(always)]
    pub fn check_sound(&self) -> Answer
        ensures { result ≡ unsound self.now }
    {
        refuse_when(!self.sound(), Reason::UnsoundBoard)
    }

    /// The checks that Feed and Read out begin with, in their order: 99, 10 and 11.
    #[tactic(auto, unfolding(checks::specs::Checks::verdict))]
    pub fn check_ramp(&self, sums: usize) -> Answer
        ensures { result ≡ verdict (ramp_checks self.now sums) }
    {
        self.check_sound()?;
        self.check_running(sums)
    }

    /// Those of a sound board: 10 and 11.
    #[tactic(auto, unfolding(checks::specs::Checks::verdict))]
    pub fn check_running(&self, sums: usize) -> Answer
        requires { Def.sound self.now ≡ true }
        ensures { result ≡ verdict (ramp_checks self.now sums) }
    {
        refuse_when(!self.running, Reason::NoRamp)?;
        refuse_when(sums != self.sides.area(), Reason::SumsLength)
    }
}
