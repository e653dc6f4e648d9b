//! The sides of a board: which ones Open takes, and how many pixels they make.
#![tactic(auto)]

ghost use Rattle.std.specs.Prelude.{◌≡◌, ◌*◌};
ghost use Rattle.sides.specs.Sides.{side_taken, sides_taken, of_sides};

/// The longest side.
pub const MAX_SIDE: usize = 1024;

/// The most pixels of a board.
pub const MAX_AREA: usize = MAX_SIDE * MAX_SIDE;

#[derive(Clone, Copy, Debug, PartialEq, Eq)]
pub struct Sides {
    pub width: usize,
    pub height: usize,
    pub binned: bool,
}

impl Sides {
    // Whether a side of n pixels is taken.
    fn takes(self, n: usize) -> bool
        ensures { result ≡ side_taken self.binned n }
    {
        (1..=MAX_SIDE).contains(&n) && !(self.binned && n % 2 == 1)
    }

    /// Whether Open takes these sides.
    #[tactic(auto, unfolding(crate::specs::Sides::sides_taken))]
    pub fn are_taken(self) -> bool
        ensures { result ≡ sides_taken self.width self.height self.binned }
    {
        self.takes(self.width) && self.takes(self.height)
    }

    /// How many pixels a board of these sides has; 0 for sides that Open doesn't take. It can't fail, and no sound board meets the 0: so no `Option`.
    pub fn area(self) -> usize
        ensures { result ≡ of_sides self.width self.height self.binned (self.width * self.height) }
    {
        if self.are_taken() {
            self.width * self.height
        } else {
            0
        }
    }
}
