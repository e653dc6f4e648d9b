//! From the entry of a pixel, or the four of a square, to the word. The range of an entry stands in each contract: it lies in a lent slice of plain numbers, and a type
//! for one would be made anew at each element. So does that of r, one of the settings' plain numbers.
#![tactic(auto)]

ghost use Rattle.std.specs.Prelude.{◌≡◌, true, cond, [], ◌∷◌, ◌+◌, ◌^◌, ◌<◌, ◌≤◌, pos, nat_abs, ◌+ℤ◌, ◌-ℤ◌, ◌≤ℤ◌};
ghost use Rattle.std.specs.Int.Signed.{lt_z};
ghost use Rattle.settings.specs.Settings.{truncation_in_range};
ghost use Rattle.word_codes.specs.Codes.{saturated_at, negative_code, word_modulus};
ghost use Rattle.entries.specs.Mark.{marked};
ghost use Rattle.encoding.specs.Word.{word_of, cut_by};
ghost use Rattle.entries.specs.SupportRange.{entry_in_range};

use entries::MARK;
use word_codes::{NEGATIVE_CODE, ORDINARY_END};

// The last word and one more: an ordinary word is a divided sum's remainder by it.
const WORD_MODULUS: u32 = 32768;

// An entry and 2^30, modulo 2^32: a sum is then above 0, and a mark below it, of two marks the earlier one lower. The total of four is left as it was.
fn raised(entry: i32) -> i32
    requires { entry_in_range entry ≡ true }
    ensures { result ≡ cond (marked entry) (entry -ℤ pos 3221225472) (entry +ℤ pos 1073741824) }
{
    entry.wrapping_add(MARK)
}

// The sign is taken before anything is cut off: only a total that isn't negative is divided, and so fits the cast, where a `TryFrom` would ask each word.
fn cut_off(shift: u16, total: i32) -> u32
    requires { shift ≤ 5 }
    ensures { result ≡ cond (lt_z total (pos 0)) negative_code (cut_by (2 ^ shift) total) }
{
    if total < 0 {
        NEGATIVE_CODE.into()
    } else {
        (total as u32 >> shift) % WORD_MODULUS
    }
}

// A mark's word, or the other: `is_marked` picks one of two numbers at hand. The mask leaves a sample as it is, and shows the compiler that both words have 15 bits; `as`
// keeps 16 of them, where a `TryFrom` would ask each word.
fn mark_or_cut(is_marked: bool, sample: i32, word: u32) -> u16
    requires pos_bound { is_marked ≡ true → (pos 0 ≤ℤ sample) × (sample ≤ℤ pos 15) }
    requires word_bound { word < word_modulus }
    ensures { result ≡ cond is_marked (saturated_at (nat_abs sample)) word }
{
    let shown = if is_marked {
        u32::from(ORDINARY_END) + (sample as u32 & 15)
    } else {
        word
    };
    shown as u16
}

/// The word of a pixel.
pub fn pixel_word(truncation: u16, entry: i32) -> u16
    requires value { entry_in_range entry ≡ true }
    requires truncation_value { truncation_in_range truncation ≡ true }
    ensures { result ≡ word_of truncation (entry ∷ []) }
{
    mark_or_cut(entry > MARK, entry - MARK, cut_off(truncation, entry))
}

/// The word of a square.
pub fn square_word(truncation: u16, a: i32, b: i32, c: i32, d: i32) -> u16
    requires a_value { (entry_in_range a ≡ true) × (entry_in_range b ≡ true) }
    requires c_value { (entry_in_range c ≡ true) × (entry_in_range d ≡ true) }
    requires truncation_value { truncation_in_range truncation ≡ true }
    ensures { result ≡ word_of truncation (a ∷ b ∷ c ∷ d ∷ []) }
{
    let p = raised(a);
    let q = raised(b);
    let s = raised(c);
    let t = raised(d);
    let first = p.min(q).min(s.min(t));
    let total = p.wrapping_add(q).wrapping_add(s.wrapping_add(t));
    mark_or_cut(first < 0, first & 15, cut_off(truncation + 2, total))
}
