//! Check 14: the first entry that isn't possible after k samples. The bounds of k stand in each contract, as in `entries::is_possible`. The passes are
//! made like those of `readings`, and share no function with them: a reading is in range by one bound, which the bits of all tell; an entry is possible by a rule of k, or near
//! by its bits, which then say no more. One function for both would take the test, its law and its bound as parameters, and is no plainer.
#![tactic(auto)]

ghost use Rattle.std.specs.Prelude.{◌≡◌, true, not, ◌&&◌, ◌+◌, ◌≤◌, pos, ◌-ℤ◌, length, get_or, ◌≤ℤ◌};
ghost use Rattle.laws.specs.Lists.{every};
ghost use Rattle.checks.specs.Search.{first_place};
ghost use Rattle.settings.specs.Settings.{max_samples};
ghost use Rattle.entries.specs.Mark.{mark};
ghost use Rattle.entries.specs.Possible.{possible_after};
ghost use Rattle.impossible.specs.SupportNear as Def;
ghost use Rattle.impossible.specs.SupportNear.{is_near, Fitting};

use entries::{MARK, is_possible, lowered};
use quarters::Quarters;

// Whether each entry is possible. With no early exit it is vector code, which takes a third of the time of `all`.
fn each_possible(k: usize, sums: &[i32]) -> bool
    requires { k ≤ max_samples }
    ensures { result ≡ every (possible_after k) sums.now }
{
    sums.iter()
        .fold(true, |good, entry| good & is_possible(k, *entry))
}

// An entry counted from `near` below 0, with marks moved down by a gap.
fn moved(gap: i32, near: i32, entry: i32) -> i32
    requires { Fitting gap near }
    ensures { result ≡ Def.moved gap near entry }
{
    lowered(gap, entry) + near
}

// Whether all four parts, of one length, are near: all their bits together are. One part after the other takes a fifth more time, and no ratio of the bench may get worse.
fn four_near(gap: i32, near: i32, a: &[i32], b: &[i32], c: &[i32], d: &[i32]) -> bool
    requires fitting { Fitting gap near }
    requires b_len { (length b.now ≡ length a.now) × (length c.now ≡ length a.now) × (length d.now ≡ length a.now) }
    ensures { result ≡ true → every (is_near gap near) a.now && every (is_near gap near) b.now && (every (is_near gap near) c.now && every (is_near gap near) d.now) ≡ true }
{
    let mut bits = 0;
    // No fold: what `moved` asks of its numbers isn't known where a fold calls it.
    for ((p, q), (s, t)) in a.iter().zip(b).zip(c.iter().zip(d)) {
        let upper = moved(gap, near, *p) | moved(gap, near, *q);
        let lower = moved(gap, near, *s) | moved(gap, near, *t);
        bits |= upper | lower;
    }
    (bits >= 0) & (bits < near + near)
}

// How far from 0 a sum is near after k samples. It is a power of two: then the bits of near entries together are near.
fn nearness(k: usize) -> i32
    ensures { result ≡ pos (Def.nearness k) }
{
    if k < 5 { 131072 } else { 1048576 }
}

// How far the mark of sample k lies above the highest near sum.
fn gap_above(k: usize, near: i32) -> i32
    requires { (k ≤ max_samples) × (pos 0 ≤ℤ near) × (near ≤ℤ pos 1048576) }
    ensures { result ≡ mark (k + 1) -ℤ near }
{
    // As in `is_possible`, no `From` of a `usize`.
    MARK + (k as i32 + 1) - near
}

// Whether all entries are surely possible, by quarters and what is left over.
fn all_near(k: usize, sums: &[i32]) -> bool
    requires { (1 ≤ k) × (k ≤ max_samples) }
    ensures { result ≡ true → every (possible_after k) sums.now ≡ true }
{
    let near = nearness(k);
    let gap = gap_above(k, near);
    let Quarters {
        first,
        second,
        third,
        fourth,
        rest,
    } = Quarters::of(sums);
    four_near(gap, near, first, second, third, fourth) & each_possible(k, rest)
}

/// The place of the first entry that isn't possible after k samples.
pub fn first_impossible(k: usize, sums: &[i32]) -> Option<usize>
    requires { (1 ≤ k) × (k ≤ max_samples) }
    ensures { result ≡ first_place (length sums.now) (λ p. not (possible_after k (get_or sums.now p (pos 0)))) }
{
    if all_near(k, sums) || each_possible(k, sums) {
        None
    } else {
        sums.iter().position(|entry| !is_possible(k, *entry))
    }
}
