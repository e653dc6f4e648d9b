//! The lines of a frame in a slice that a caller lends, from a place on.
ghost use Rattle.std.specs.Prelude.{◌≡◌, ◌++◌, ◌+◌, ◌*◌, ◌≤◌, ◌<◌, length, take};
ghost use Rattle.jig_lines.specs.Lines.{lines_text};

use crate::put_line;
use arrayvec::ArrayVec;
use jig_text::slices::put_at;

/// The lines of the words, row by row. It gives the place after the last.
#[tactic(auto, unfolding(crate::specs::Lines::lines_text))]
pub fn put_lines_at(
    out: &mut [u8],
    at: usize,
    columns: usize,
    truncation: u16,
    words: &[u16],
) -> usize
    requires columns_nonzero { 0 < columns }
    requires room { at + length words.now * 106 ≤ length out.old }
    ensures end { result ≤ at + length words.now * 106 }
    ensures text { take result out.new ≡ take at out.old ++ lines_text columns truncation words.now (length words.now) }
{
    let mut end = at;
    for (i, word) in words.iter().enumerate() {
        let mut line: ArrayVec<u8, 106> = ArrayVec::new();
        put_line(&mut line, i / columns, i % columns, truncation, *word);
        end = put_at(out, end, line.as_slice());
    }
    end
}
