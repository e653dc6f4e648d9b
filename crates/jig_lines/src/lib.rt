//! The lines of a frame, at the end of a list of bytes.
//! No `Display`: as in `text`.
#![tactic(auto)]

ghost use Rattle.std.specs.Prelude.{◌≡◌, ◌++◌, ◌+◌, ◌*◌, ◌≤◌, ◌<◌, length};
ghost use Rattle.arrayvec.specs.ArrayVec.{array_vec_len};
ghost use Rattle.jig_lines.specs.Lines.{field_text, line_text, lines_text};

use arrayvec::ArrayVec;
use jig_text::{put, put_decimal, put_meaning};
use meaning::read_word;

pub mod slices;

// A number, and a space after it.
fn put_field<const ROOM: usize>(out: &mut ArrayVec<u8, ROOM>, n: u64)
    requires { array_vec_len out.old + 21 ≤ ROOM }
    ensures end { array_vec_len out.new ≤ array_vec_len out.old + 21 }
    ensures text { out.new.items ≡ out.old.items ++ field_text n }
{
    put_decimal(out, n);
    put(out, b" ");
}

// A word's line. No `From` of its place: the library has none of a `usize` for a `u64`.
#[tactic(auto, using(jig_text::proofs::Limits::whole_limits))]
fn put_line<const ROOM: usize>(
    out: &mut ArrayVec<u8, ROOM>,
    row: usize,
    column: usize,
    truncation: u16,
    word: u16,
)
    requires { array_vec_len out.old + 106 ≤ ROOM }
    ensures end { array_vec_len out.new ≤ array_vec_len out.old + 106 }
    ensures text { out.new.items ≡ out.old.items ++ line_text row column truncation word }
{
    put_field(out, row as u64);
    put_field(out, column as u64);
    put_field(out, u64::from(word));
    put_meaning(out, read_word(truncation, word));
    put(out, b"\n");
}

/// The lines of the words, row by row.
#[tactic(auto, unfolding(crate::specs::Lines::lines_text))]
pub fn put_lines<const ROOM: usize>(
    out: &mut ArrayVec<u8, ROOM>,
    columns: usize,
    truncation: u16,
    words: &[u16],
)
    requires columns_nonzero { 0 < columns }
    requires room { array_vec_len out.old + length words.now * 106 ≤ ROOM }
    ensures end { array_vec_len out.new ≤ array_vec_len out.old + length words.now * 106 }
    ensures text { out.new.items ≡ out.old.items ++ lines_text columns truncation words.now (length words.now) }
{
    for (i, word) in words.iter().enumerate() {
        put_line(out, i / columns, i % columns, truncation, *word);
    }
}
