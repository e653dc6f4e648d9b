//! A slice in four parts of one length, and what is left over.
#![tactic(auto)]

ghost use Rattle.std.specs.Prelude.{◌≡◌, ◌+◌, ◌/◌, length, take, drop};

#[derive(Clone, Copy, Debug, PartialEq, Eq)]
pub struct Quarters<'a, T> {
    pub first: &'a [T],
    pub second: &'a [T],
    pub third: &'a [T],
    pub fourth: &'a [T],
    pub rest: &'a [T],
}

impl<'a, T> Quarters<'a, T> {
    pub fn of(whole: &'a [T]) -> Self
        ensures first { result.first.now ≡ take (length whole.now / 4) whole.now }
        ensures second { let n = length whole.now / 4 in result.second.now ≡ take n (drop n whole.now) }
        ensures third { let n = length whole.now / 4 in result.third.now ≡ take n (drop (n + n) whole.now) }
        ensures fourth { let n = length whole.now / 4 in result.fourth.now ≡ take n (drop (n + n + n) whole.now) }
        ensures lengths { (length result.second.now ≡ length result.first.now) × (length result.third.now ≡ length result.first.now) × (length result.fourth.now ≡ length result.first.now) }
        ensures rest { let n = length whole.now / 4 in result.rest.now ≡ drop (n + n + n + n) whole.now }
    {
        let n = whole.len() / 4;
        let (first, rest) = whole.split_at(n);
        let (second, rest) = rest.split_at(n);
        let (third, rest) = rest.split_at(n);
        let (fourth, rest) = rest.split_at(n);
        Quarters {
            first,
            second,
            third,
            fourth,
            rest,
        }
    }
}
