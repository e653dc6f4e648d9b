//! The numbers of a line, at most as many as a line has. They can be copied, which no vector can.
ghost use Rattle.std.specs.Prelude.{◌≡◌, cond, take};
ghost use Rattle.std.specs.Cmp.{int_eq_equiv, on_equiv, on_per, partial_equiv_from_equiv};
ghost use Rattle.std.specs.Cmp.Lexicographic.{lists_equiv, lists_per, pointwise};
ghost use Rattle.std.specs.Ordering.{int_eq};
ghost use Rattle.replay_items.specs.Numbers.{no_numbers, has_room, with_number};

use crate::COUNT;

/// The first `count` of the array. What stands behind them doesn't count.
#[derive(Clone, Copy, Debug)]
pub struct Numbers {
    numbers: [i64; COUNT],
    count: usize,
}

impl Numbers {
    /// No numbers.
    pub fn new() -> Numbers
        ensures { result ≡ no_numbers }
    {
        Numbers {
            numbers: [0; COUNT],
            count: 0,
        }
    }

    /// No number is left.
    pub fn clear(&mut self)
        ensures count { self.new.count ≡ 0 }
        ensures numbers { self.new.numbers ≡ self.old.numbers }
    {
        self.count = 0;
    }

    /// One number more, if there is room.
    pub fn push(&mut self, n: i64) -> bool
        ensures room { result ≡ has_room self.old }
        ensures numbers { self.new ≡ cond (has_room self.old) (with_number n self.old) self.old }
    {
        if self.count < COUNT {
            self.numbers[self.count] = n;
            self.count += 1;
            true
        } else {
            false
        }
    }

    /// The numbers.
    pub fn as_slice(&self) -> &[i64]
        ensures { result.now ≡ take self.now.count self.now.numbers }
    {
        self.numbers.get(..self.count).unwrap_or(&self.numbers)
    }
}

// `==` is written by hand: a derived one would see what stands behind the numbers.
impl PartialEq for Numbers {
    ghost eq = { λ v w. pointwise int_eq (take v.count v.numbers) (take w.count w.numbers) };

    ghost laws = { on_per (λ v. take v.count v.numbers) (lists_per (partial_equiv_from_equiv int_eq_equiv)) };

    fn eq(&self, other: &Self) -> bool {
        self.as_slice() == other.as_slice()
    }
}

impl Eq for Numbers {
    ghost laws = { on_equiv (λ v. take v.count v.numbers) (lists_equiv int_eq_equiv) };
}
