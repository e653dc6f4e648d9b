//! The nearest flag and the flags in a box. What an answer doesn't tell is left as it was.
ghost use Rattle.std.specs.Prelude.{◌≡◌};
ghost use Rattle.places.specs.Places.{place_at};
ghost use Rattle.places.specs.Finding.{nearest_of};
ghost use Rattle.places.specs.Counting.{count_of};
ghost use Rattle.ramp_board.specs.Answers.{result_number, result_place};
ghost use Rattle.ramp_board.specs.FlagAnswers.{found_after, row_after, column_after, flags_after};

use checks::plain::number_and_place;
use flags::{count_flags, nearest_flag};
use places::{Frame, Place};

/// The nearest flag, as `flags::nearest_flag`: it leaves 1 in `found` and the flag's row and column, or 0 in `found` where there is none.
/// Refused, in this order, with 19 for a side, 16, and 19 for the place: then all three are as they were. The definitions are `nearest_of` of places/specs/Finding.antt, and specs/FlagAnswers.antt.
#[unsafe(no_mangle)]
pub extern "C" fn ramp_nearest_flag(
    words: &[u16],
    width: usize,
    height: usize,
    row: usize,
    column: usize,
    found: &mut usize,
    flag_row: &mut usize,
    flag_column: &mut usize,
    place: &mut usize,
) -> u8
    ensures number { result ≡ result_number (nearest_of words.now width height (place_at row column)) }
    ensures place { place.new ≡ result_place (nearest_of words.now width height (place_at row column)) }
    ensures found { found.new ≡ found_after (nearest_of words.now width height (place_at row column)) found.old }
    ensures row { flag_row.new ≡ row_after (nearest_of words.now width height (place_at row column)) flag_row.old }
    ensures column { flag_column.new ≡ column_after (nearest_of words.now width height (place_at row column)) flag_column.old }
{
    let frame = Frame {
        words,
        width,
        height,
    };
    match nearest_flag(frame, Place { row, column }) {
        Ok(Some(flag)) => {
            *found = 1;
            *flag_row = flag.row;
            *flag_column = flag.column;
            number_and_place(Ok(()), place)
        }
        Ok(None) => {
            *found = 0;
            number_and_place(Ok(()), place)
        }
        Err(refusal) => number_and_place(Err(refusal), place),
    }
}

/// The flags in a box, as `flags::count_flags`: it leaves their number in `flags`.
/// Refused, in this order, with 19 for a side, 16, and 19 for the box: then `flags` is as it was. The definitions are `count_of` of places/specs/Counting.antt, and specs/FlagAnswers.antt.
#[unsafe(no_mangle)]
pub extern "C" fn ramp_count_flags(
    words: &[u16],
    width: usize,
    height: usize,
    first_row: usize,
    first_column: usize,
    last_row: usize,
    last_column: usize,
    flags: &mut usize,
    place: &mut usize,
) -> u8
    ensures number { result ≡ result_number (count_of words.now width height (place_at first_row first_column) (place_at last_row last_column)) }
    ensures place { place.new ≡ result_place (count_of words.now width height (place_at first_row first_column) (place_at last_row last_column)) }
    ensures flags { flags.new ≡ flags_after (count_of words.now width height (place_at first_row first_column) (place_at last_row last_column)) flags.old }
{
    let frame = Frame {
        words,
        width,
        height,
    };
    let first = Place {
        row: first_row,
        column: first_column,
    };
    let last = Place {
        row: last_row,
        column: last_column,
    };
    match count_flags(frame, first, last) {
        Ok(count) => {
            *flags = count;
            number_and_place(Ok(()), place)
        }
        Err(refusal) => number_and_place(Err(refusal), place),
    }
}
