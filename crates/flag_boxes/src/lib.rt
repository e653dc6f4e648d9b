//! The count of flags in a box.
#![tactic(auto)]

ghost use Rattle.std.specs.Prelude.{◌≡◌, ◌≤◌, length, count_by};
ghost use Rattle.meaning.specs.Meaning.{is_flag};
ghost use Rattle.places.specs.Counting.{how_many, flag_within};
ghost use Rattle.flag_boxes.specs.SupportRequires.{Boxed};

use meaning::is_flag;
use places::{Frame, Place};

// How many words are flags. 16 bits hold that of a row, and the compiler makes vector code of it.
// Not an iterator's `sum`: in a box of one column that takes a third longer.
fn count(words: &[u16]) -> u16
    requires { length words.now ≤ 1024 }
    ensures { result ≡ count_by is_flag words.now }
{
    let mut flags = 0;
    for w in words {
        flags += u16::from(is_flag(*w));
    }
    flags
}

/// How many flags lie in a box, row by row.
#[tactic(auto, using(crate::proofs::BoxRows::before_box, crate::proofs::BoxRows::rows_done, crate::proofs::BoxRows::row_few, crate::proofs::BoxRows::row_more))]
pub fn count_in_box(frame: Frame, first: Place, last: Place) -> usize
    requires { Boxed frame.words.now frame.width first last }
    ensures { result ≡ how_many (length frame.entry.words.now) (flag_within frame.entry.words.now frame.entry.width first last) }
{
    let mut n = 0;
    for row in first.row..=last.row {
        let start = row * frame.width;
        let part = &frame.words[start + first.column..=start + last.column];
        n += usize::from(count(part));
    }
    n
}
