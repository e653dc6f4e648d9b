//! Text at the end of a list of bytes: bytes, numbers, refusals, and what a word means.
//! No `Display`: its writer may fail, and no contract says that one with room doesn't. These can't fail:
//! there is room, and each contract says for how many bytes.
#![tactic(auto)]

ghost use Rattle.std.specs.Prelude.{◌≡◌, ◌++◌, ◌+◌, ◌≤◌, T, length};
ghost use Rattle.std.specs.Float.{binary64};
ghost use Rattle.std.specs.Float.Ieee.{in_unsigned};
ghost use Rattle.arrayvec.specs.ArrayVec.{array_vec_len};
ghost use Rattle.jig_text.specs.Text.{whole_of, dots, decimal, refusal_text, meaning_text};
ghost use Rattle.jig_text.specs.SupportRequires.{WholeLimits};

use arrayvec::ArrayVec;
use checks::Refusal;
use meaning::WordRead;

pub mod slices;

/// Bytes as they are.
pub fn put<const ROOM: usize>(out: &mut ArrayVec<u8, ROOM>, bytes: &[u8])
    requires { array_vec_len out.old + length bytes.now ≤ ROOM }
    ensures { out.new.items ≡ out.old.items ++ bytes.now }
{
    out.try_extend_from_slice(bytes).unwrap();
}

/// A number in decimal.
#[tactic(auto, using(crate::proofs::Decimals::is_decimal, crate::proofs::Decimals::few))]
pub fn put_decimal<const ROOM: usize>(out: &mut ArrayVec<u8, ROOM>, n: u64)
    requires { array_vec_len out.old + 20 ≤ ROOM }
    ensures end { array_vec_len out.new ≤ array_vec_len out.old + 20 }
    ensures text { out.new.items ≡ out.old.items ++ decimal n }
{
    let mut digits = [0u8; 20];
    let count = io::decimal(n, &mut digits);
    put(out, &digits[..count]);
}

// A limit, which is a whole number, as one. No `From`: the library has none of a float.
fn whole(limit: f64) -> u64
    requires { T (in_unsigned binary64 64 limit) }
    ensures { result ≡ whole_of limit }
{
    limit as u64
}

// The two limits of an ordinary word.
fn put_limits<const ROOM: usize>(out: &mut ArrayVec<u8, ROOM>, low: f64, high: f64)
    requires room { array_vec_len out.old + 42 ≤ ROOM }
    requires limits_whole { T (in_unsigned binary64 64 low) × T (in_unsigned binary64 64 high) }
    ensures end { array_vec_len out.new ≤ array_vec_len out.old + 42 }
    ensures text { out.new.items ≡ out.old.items ++ ((decimal (whole_of low) ++ dots) ++ decimal (whole_of high)) }
{
    put_decimal(out, whole(low));
    put(out, b"..");
    put_decimal(out, whole(high));
}

/// A refusal, by its number.
pub fn put_refusal<const ROOM: usize>(out: &mut ArrayVec<u8, ROOM>, refusal: Refusal)
    requires { array_vec_len out.old + 28 ≤ ROOM }
    ensures end { array_vec_len out.new ≤ array_vec_len out.old + 28 }
    ensures text { out.new.items ≡ out.old.items ++ refusal_text refusal }
{
    put(out, b"refused ");
    put_decimal(out, u64::from(refusal.reason.number()));
}

/// What a word means, or why it was not read.
pub fn put_meaning<const ROOM: usize>(out: &mut ArrayVec<u8, ROOM>, read: Result<WordRead, Refusal>)
    requires room { array_vec_len out.old + 42 ≤ ROOM }
    requires whole_limits { WholeLimits read }
    ensures end { array_vec_len out.new ≤ array_vec_len out.old + 42 }
    ensures text { out.new.items ≡ out.old.items ++ meaning_text read }
{
    match read {
        Ok(WordRead::Ordinary { low, high }) => put_limits(out, low, high),
        Ok(WordRead::Saturated(sample)) => {
            put(out, b"sat ");
            put_decimal(out, u64::from(sample));
        }
        Ok(WordRead::Negative) => put(out, b"neg"),
        Ok(WordRead::Unassigned) => put(out, b"none"),
        Err(refusal) => put_refusal(out, refusal),
    }
}
