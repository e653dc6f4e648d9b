//! The same text in a slice that a caller lends, from a place on, for who has no list of a capacity of its own. Each function gives the place after what it put; what stands from there on
//! is left free.
ghost use Rattle.std.specs.Prelude.{◌≡◌, ◌++◌, ◌+◌, ◌≤◌, length, take};
ghost use Rattle.jig_text.specs.Text.{decimal, refusal_text, meaning_text};
ghost use Rattle.jig_text.specs.SupportRequires.{WholeLimits};

use crate::{put_decimal, put_meaning, put_refusal};
use arrayvec::ArrayVec;
use checks::Refusal;
use meaning::WordRead;

/// Bytes as they are.
pub fn put_at(out: &mut [u8], at: usize, bytes: &[u8]) -> usize
    requires { at + length bytes.now ≤ length out.old }
    ensures end { result ≡ at + length bytes.now }
    ensures text { take result out.new ≡ take at out.old ++ bytes.now }
{
    let end = at + bytes.len();
    out[at..end].copy_from_slice(bytes);
    end
}

/// A number in decimal.
pub fn put_decimal_at(out: &mut [u8], at: usize, n: u64) -> usize
    requires { at + 20 ≤ length out.old }
    ensures end { result ≤ at + 20 }
    ensures text { take result out.new ≡ take at out.old ++ decimal n }
{
    let mut text: ArrayVec<u8, 20> = ArrayVec::new();
    put_decimal(&mut text, n);
    put_at(out, at, text.as_slice())
}

/// A refusal, by its number.
pub fn put_refusal_at(out: &mut [u8], at: usize, refusal: Refusal) -> usize
    requires { at + 28 ≤ length out.old }
    ensures end { result ≤ at + 28 }
    ensures text { take result out.new ≡ take at out.old ++ refusal_text refusal }
{
    let mut text: ArrayVec<u8, 28> = ArrayVec::new();
    put_refusal(&mut text, refusal);
    put_at(out, at, text.as_slice())
}

/// What a word means, or why it was not read.
pub fn put_meaning_at(out: &mut [u8], at: usize, read: Result<WordRead, Refusal>) -> usize
    requires room { at + 42 ≤ length out.old }
    requires whole_limits { WholeLimits read }
    ensures end { result ≤ at + 42 }
    ensures text { take result out.new ≡ take at out.old ++ meaning_text read }
{
    let mut text: ArrayVec<u8, 42> = ArrayVec::new();
    put_meaning(&mut text, read);
    put_at(out, at, text.as_slice())
}
