//! The numbers of a line: one alone, or all that follow a count, as the bytes of a record or as numbers of 16 bits; and floats, each as two numbers.
#![tactic(auto)]

ghost use Rattle.std.specs.Prelude.{◌≡◌, cond, ◌+◌, ◌<◌, pos, length, get_or};
ghost use Rattle.replay_items.specs.Items.{up_to, byte_items, short_items};
ghost use Rattle.replay_items.specs.Patterns.{float_of_halves, pattern_at, half, halves};

use std::{array, num};

pub mod numbers;

pub use numbers::Numbers;

/// The most entries of the sums, readings of a feed, bytes of a record and words.
pub const MOST: usize = 4096;

/// The most numbers of a line: a count, and the items that it counts.
pub const COUNT: usize = MOST + 1;

/// The halves of the patterns of the most floats.
pub const HALVES: usize = 2 * MOST;

// The halves of a pattern are below it.
const HALF_RANGE: u64 = 4294967296;

// The pattern that stands for each pattern of no number.
const NO_NUMBER: u64 = 2146959360 * HALF_RANGE;

/// The number at a place of a list; 0 past its end: it can't fail, as the definitions have it.
/// `record::byte` is this one call on bytes: one function for both would be the call under another name.
pub fn item(list: &[i64], i: usize) -> i64
    ensures { result ≡ get_or list.now i (pos 0) }
{
    list.get(i).copied().unwrap_or(0)
}

// A number as a byte, and as one of 16 bits; 0 for one out of range, as the definition has it: no `Option`, since the numbers of a command are in range before its items are
// made. Two functions each, here and below: one of any type with `TryFrom` and `Default` could promise nothing of the
// numbers, since the library doesn't say what these give for a type that isn't named. A test and a cast, since `try_from` takes twice as long for each item.
fn byte(n: i64) -> u8
    ensures { result ≡ up_to 255 n }
{
    if (0..=255).contains(&n) { n as u8 } else { 0 }
}

fn short(n: i64) -> u16
    ensures { result ≡ up_to 65535 n }
{
    if (0..=65535).contains(&n) {
        n as u16
    } else {
        0
    }
}

// The place in a list of an item: the first one's each time, or one after the other. `same` is a part of a command, as a script has it, and no switch on a step.
fn place(i: usize, same: bool) -> usize
    requires { i < 4096 }
    ensures { result ≡ cond same 1 (i + 1) }
{
    if same { 1 } else { i + 1 }
}

/// The items of a list, as the bytes of a record: all that a list can have, of which a command's count says how many are meant.
pub fn bytes_of(list: &[i64]) -> [u8; MOST]
    ensures count { 4096 ≡ length result }
    ensures items { result ≡ byte_items list.now }
{
    array::from_fn(|i| byte(item(list, i + 1)))
}

/// The items of a list, as numbers of 16 bits, or its first item each time, as in `place`: readings or words.
pub fn shorts_of(same: bool, list: &[i64]) -> [u16; MOST]
    ensures count { 4096 ≡ length result }
    ensures items { result ≡ short_items same list.now }
{
    array::from_fn(|i| short(item(list, place(i, same))))
}

/// The float of a pattern, by its halves. Every pattern of no number gives one and the same.
pub fn float_of_halves(high: u32, low: u32) -> f64
    ensures { result ≡ float_of_halves high low }
{
    num::f64_from_bits_with_nan(u64::from(high) * HALF_RANGE + u64::from(low))
}

// The pattern of the float at a place of a list.
fn pattern_at(floats: &[f64], i: usize) -> u64
    ensures { result ≡ pattern_at floats.now i }
{
    match floats.get(i) {
        Some(float) => num::f64_to_bits_with_nan(*float),
        None => NO_NUMBER,
    }
}

// The high half of a pattern at an even place, the low one at an odd place.
fn half(i: usize, pattern: u64) -> u32
    ensures { result ≡ half i pattern }
{
    if i % 2 == 0 {
        (pattern / HALF_RANGE) as u32
    } else {
        (pattern % HALF_RANGE) as u32
    }
}

/// The halves of the patterns of floats, the high one of each first: for all floats that a list can have, of which as many count as there are.
pub fn halves_of(floats: &[f64]) -> [u32; HALVES]
    ensures count { 8192 ≡ length result }
    ensures items { result ≡ halves floats.now }
{
    array::from_fn(|i| half(i, pattern_at(floats, i / 2)))
}
