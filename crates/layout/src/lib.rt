//! The passes over a whole frame: which entries make which word. The range of r stands in each contract, here and in `words`: it is one of the settings' plain numbers, as
//! document 01 has them. So does that of the entries: a type for one would be made anew at each element. `Readable`,
//! what a pass asks of sides, sums and words together, is one record. Buffers are lent one by one, as in `read_out`.
#![tactic(auto)]

ghost use Rattle.std.specs.Prelude.{◌≡◌, true, false, ◌*◌, length};
ghost use Rattle.laws.specs.Lists.{every, each};
ghost use Rattle.settings.specs.Settings.{truncation_in_range};
ghost use Rattle.engines.specs.SupportRange.{entry_in_range_in};
ghost use Rattle.encoding.specs.Frame.{frame_in};
ghost use Rattle.layout.specs.SupportRequires.{Readable, row_word};

use kinds::Entry;
use sides::Sides;
use words::{pixel_word, square_word};

// A word for each pixel. No zip here and below: of what is written through one a proof knows the length alone.
fn write_pixels<E: Entry>(sides: Sides, truncation: u16, sums: &[E], words: &mut [u16])
    requires { Readable E.engine sides.width sides.height false truncation sums.now words.old }
    ensures { words.new ≡ frame_in E.engine sides.width false truncation sums.now }
{
    for (i, word) in words.iter_mut().enumerate() {
        *word = pixel_word(truncation, sums[i].whole());
    }
}

// A row of squares: two rows of sums, each twice as long.
fn write_row<E: Entry>(truncation: u16, upper: &[E], lower: &[E], words: &mut [u16])
    requires upper_len { (length upper.now ≡ 2 * length words.old) × (length lower.now ≡ 2 * length words.old) }
    requires upper_value { every (entry_in_range_in E.engine) upper.now ≡ true }
    requires lower_value { every (entry_in_range_in E.engine) lower.now ≡ true }
    requires truncation_value { truncation_in_range truncation ≡ true }
    ensures { words.new ≡ each (row_word E.engine truncation upper.now lower.now) (length words.old) }
{
    for (i, word) in words.iter_mut().enumerate() {
        let k = 2 * i;
        *word = square_word(
            truncation,
            upper[k].whole(),
            upper[k + 1].whole(),
            lower[k].whole(),
            lower[k + 1].whole(),
        );
    }
}

// A word for each square, by pairs of rows; by index, since chunks may not be empty and a width of 0 is not ruled out.
fn write_squares<E: Entry>(sides: Sides, truncation: u16, sums: &[E], words: &mut [u16])
    requires { Readable E.engine sides.width sides.height true truncation sums.now words.old }
    ensures { words.new ≡ frame_in E.engine sides.width true truncation sums.now }
{
    let width = sides.width;
    let half = width / 2;
    for row in 0..sides.height / 2 {
        let at = 2 * row * width;
        let middle = at + width;
        let to = row * half;
        write_row(
            truncation,
            &sums[at..middle],
            &sums[middle..middle + width],
            &mut words[to..to + half],
        );
    }
}

/// The frame of the sums, of pixels or of squares.
pub fn write_frame<E: Entry>(sides: Sides, truncation: u16, sums: &[E], words: &mut [u16])
    requires { Readable E.engine sides.width sides.height sides.binned truncation sums.now words.old }
    ensures { words.new ≡ frame_in E.engine sides.width sides.binned truncation sums.now }
{
    if sides.binned {
        write_squares(sides, truncation, sums, words);
    } else {
        write_pixels(sides, truncation, sums, words);
    }
}
