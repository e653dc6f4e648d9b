//! The commands of a script, each with its numbers.
#![tactic(auto)]

ghost use Rattle.std.specs.Prelude.{◌≡◌, ◌≤◌, IfOk, OkIff, true, pos, neg_ℤ, ◌≤ℤ◌};
ghost use Rattle.board_words.specs.Words.{holds_board, held};
ghost use Rattle.replay_items.specs.Items.{natural_of, entry_of};
ghost use Rattle.replay_items.specs.Patterns.{float_of_halves};
ghost use Rattle.replay_commands.specs.Ranges.{InRange};
ghost use Rattle.replay_commands.specs.declared.Command.TheVariants.{Board as BoardCommand};

use board::Board;
use board_words::{held, holds_board};
use places::Place;
use replay_items::{MOST, float_of_halves};
use sides::Sides;
use std::num::TryFromIntError;

/// The two kinds of buffers, by their entries: whole numbers, `sums` in a script, and floats.
#[derive(Clone, Copy, Debug, PartialEq, Eq)]
pub enum Kind {
    WholeNumbers,
    Floats,
}

/// An entry of either kind.
#[derive(Clone, Copy, Debug, PartialEq)]
pub enum AnyEntry {
    WholeNumber(i32),
    Float(f64),
}

/// `Update`, `Feed` and `Words` count their items, which stay in the list: a command is copied, and one with room for 4,096 items would be copied whole. No slices of
/// the list: a `fill` has one reading for all, so a count stands there in any case, beside `same`. `Nearest` and `Count` have a width and a height as the script names
/// them: a `Frame` needs the words too. That a command is in range, `InRange`, stands in the contracts of what makes one and of what plays it: a type for it would hold the
/// command and be taken apart at once.
#[derive(Clone, Copy, Debug, PartialEq)]
pub enum Command {
    Open(Sides),
    Board(Board),
    Update(usize),
    Start,
    Feed {
        kind: Kind,
        count: usize,
        same: bool,
    },
    ReadOut {
        kind: Kind,
        count: usize,
    },
    Drop,
    Covered,
    Word {
        word: u16,
        truncation: u16,
    },
    Replace {
        length: usize,
        entry: AnyEntry,
    },
    Poke {
        index: usize,
        entry: AnyEntry,
    },
    Swap(Kind),
    Print {
        kind: Kind,
        start: usize,
        count: usize,
    },
    Words(usize),
    Nearest {
        width: usize,
        height: usize,
        place: Place,
    },
    Count {
        width: usize,
        height: usize,
        first: Place,
        last: Place,
    },
}

/// A line that says no command.
#[derive(Clone, Copy, Debug, PartialEq, Eq)]
pub struct Malformed;

impl From<TryFromIntError> for Malformed {
    fn from(_error: TryFromIntError) -> Malformed {
        Malformed
    }
}

// The largest number of ten digits, and the largest with no sign of 16 bits and of 8.
const LARGEST: usize = 9999999999;

const LARGEST_SHORT: usize = 65535;

const LARGEST_BYTE: usize = 255;

// A number with no sign, up to the highest.
fn up_to(n: i64, highest: usize) -> Result<usize, Malformed>
    ensures number { OkIff result ((pos 0 ≤ℤ n) × (n ≤ℤ pos highest)) (natural_of n) }
    ensures bound { IfOk result (λ m. m ≤ highest) }
{
    let m = usize::try_from(n)?;
    if m <= highest { Ok(m) } else { Err(Malformed) }
}

// A number with no sign of 16 bits, and of 8.
fn short(n: i64) -> Result<u16, Malformed>
    ensures { OkIff result ((pos 0 ≤ℤ n) × (n ≤ℤ pos 65535)) (natural_of n) }
{
    Ok(u16::try_from(n)?)
}

fn byte(n: i64) -> Result<u8, Malformed>
    ensures { OkIff result ((pos 0 ≤ℤ n) × (n ≤ℤ pos 255)) (natural_of n) }
{
    Ok(u8::try_from(n)?)
}

// A number of 32 bits with a sign.
fn whole_number(n: i64) -> Result<i32, Malformed>
    ensures { OkIff result ((neg_ℤ (pos 2147483648) ≤ℤ n) × (n ≤ℤ pos 2147483647)) (entry_of n) }
{
    Ok(i32::try_from(n)?)
}

// A float by the halves of its pattern, each a number of 32 bits with no sign.
fn float(high: i64, low: i64) -> Result<f64, Malformed>
    ensures { OkIff result (((pos 0 ≤ℤ high) × (high ≤ℤ pos 4294967295)) × (pos 0 ≤ℤ low) × (low ≤ℤ pos 4294967295)) (float_of_halves (natural_of high) (natural_of low)) }
{
    Ok(float_of_halves(u32::try_from(high)?, u32::try_from(low)?))
}

// The kind of the entries that a command's word names: those of the sums if it names none.
fn kind_named(word: &[u8]) -> Kind {
    if word.ends_with(b"floats") {
        Kind::Floats
    } else {
        Kind::WholeNumbers
    }
}

// An entry of the kind that a command's word names.
fn entry_named(word: &[u8], numbers: &[i64]) -> Result<AnyEntry, Malformed> {
    match (kind_named(word), numbers) {
        (Kind::WholeNumbers, [n]) => Ok(AnyEntry::WholeNumber(whole_number(*n)?)),
        (Kind::Floats, [high, low]) => Ok(AnyEntry::Float(float(*high, *low)?)),
        _ => Err(Malformed),
    }
}

// A place of a frame, by its row and its column.
fn place(row: i64, column: i64) -> Result<Place, Malformed> {
    Ok(Place {
        row: large(row)?,
        column: large(column)?,
    })
}

// 0 for no, 1 for yes.
fn flag(n: i64) -> Result<bool, Malformed> {
    Ok(up_to(n, 1)? == 1)
}

// A number with no sign that is any of ten digits.
fn large(n: i64) -> Result<usize, Malformed>
    ensures { IfOk result (λ m. m ≤ 9999999999) }
{
    up_to(n, LARGEST)
}

// The board that these numbers hold as the words of a board in lent memory, sound or not.
fn board(list: &[i64]) -> Result<Board, Malformed>
    ensures board { OkIff result ((holds_board list.now ≡ true) × InRange (BoardCommand (held list.now))) (held list.now) }
    ensures range { IfOk result (λ board. InRange (BoardCommand board)) }
{
    if !holds_board(list) {
        return Err(Malformed);
    }
    let board = held(list);
    if board.sides.width <= LARGEST && board.sides.height <= LARGEST && board.fed <= LARGEST {
        Ok(board)
    } else {
        Err(Malformed)
    }
}

// How many items there are, if it is as many as their count says, and each goes up to the highest.
fn counted(count: i64, items: &[i64], highest: usize) -> Result<usize, Malformed>
    ensures { IfOk result (λ m. m ≤ 4096) }
{
    let m = up_to(count, MOST)?;
    if m == items.len() && items.iter().all(|n| up_to(*n, highest).is_ok()) {
        Ok(m)
    } else {
        Err(Malformed)
    }
}

/// The command of a word that takes the numbers of a list.
pub fn named(word: &[u8], list: &[i64]) -> Result<Command, Malformed>
    ensures { IfOk result InRange }
{
    match (word, list) {
        (b"open", [width, height, binned]) => Ok(Command::Open(Sides {
            width: usize::from(short(*width)?),
            height: usize::from(short(*height)?),
            binned: flag(*binned)?,
        })),
        (b"board", numbers) => Ok(Command::Board(board(numbers)?)),
        (b"update", [count, bytes @ ..]) => Ok(Command::Update(counted(
            *count,
            bytes,
            LARGEST_BYTE,
        )?)),
        (b"start", []) => Ok(Command::Start),
        (b"feed" | b"feed floats", [count, readings @ ..]) => Ok(Command::Feed {
            kind: kind_named(word),
            count: counted(*count, readings, LARGEST_SHORT)?,
            same: false,
        }),
        (b"fill" | b"fill floats", [count, reading]) => {
            short(*reading)?;
            Ok(Command::Feed {
                kind: kind_named(word),
                count: up_to(*count, MOST)?,
                same: true,
            })
        }
        (b"readout" | b"readout floats", [count]) => Ok(Command::ReadOut {
            kind: kind_named(word),
            count: up_to(*count, MOST)?,
        }),
        (b"drop", []) => Ok(Command::Drop),
        (b"covered", []) => Ok(Command::Covered),
        (b"word", [word, truncation]) => Ok(Command::Word {
            word: short(*word)?,
            truncation: u16::from(byte(*truncation)?),
        }),
        (b"sums" | b"floats", [length, numbers @ ..]) => Ok(Command::Replace {
            length: up_to(*length, MOST)?,
            entry: entry_named(word, numbers)?,
        }),
        (b"poke" | b"poke floats", [index, numbers @ ..]) => Ok(Command::Poke {
            index: up_to(*index, MOST - 1)?,
            entry: entry_named(word, numbers)?,
        }),
        (b"swap" | b"swap floats", []) => Ok(Command::Swap(kind_named(word))),
        (b"print sums" | b"print floats", [start, count]) => Ok(Command::Print {
            kind: kind_named(word),
            start: up_to(*start, MOST)?,
            count: up_to(*count, MOST)?,
        }),
        (b"words", [count, words @ ..]) => Ok(Command::Words(counted(
            *count,
            words,
            LARGEST_SHORT,
        )?)),
        (b"nearest", [width, height, row, column]) => Ok(Command::Nearest {
            width: large(*width)?,
            height: large(*height)?,
            place: place(*row, *column)?,
        }),
        (b"count", [width, height, row, column, last_row, last_column]) => Ok(Command::Count {
            width: large(*width)?,
            height: large(*height)?,
            first: place(*row, *column)?,
            last: place(*last_row, *last_column)?,
        }),
        _ => Err(Malformed),
    }
}
