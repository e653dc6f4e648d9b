//! The commands of a script, played on a board, on the sums and the floats that are lent and on the words.
ghost use Rattle.std.specs.Prelude.{◌≤◌, length};
ghost use Rattle.replay_commands.specs.Ranges.{InRange};

use crate::buffers::{Buffers, set_items};
use crate::show::{Answered, Flag, Flags, Meaning, Shown, Tens};
use arrayvec::ArrayVec;
use board::Board;
use checks::Answer;
use control::covered;
use feed::feed;
use flags::{count_flags, nearest_flag};
use meaning::read_word;
use places::Frame;
use read_out::read_out;
use replay_commands::{AnyEntry, Command, Kind};
use replay_items::{MOST, Numbers, bytes_of, halves_of, shorts_of};
use replay_script::said;
use sides::Sides;
use std::fmt::{self, Write};

// Some floats, by the halves of their patterns.
#[inline(never)]
fn print_floats(out: &mut impl Write, floats: &[f64]) -> fmt::Result
    requires { length floats.now ≤ 4096 }
{
    let halves = halves_of(floats);
    write!(out, "taken\n{}", Tens(&halves[..2 * floats.len()]))
}

// A board, the sums and the floats, and the words.
#[derive(Drop)]
pub(crate) struct Player {
    board: Board,
    sums: Buffers<i32>,
    floats: Buffers<f64>,
    words: ArrayVec<u16, MOST>,
}

impl Player {
    // No board is open, and the sums, the floats and the words are empty. No `Option`: until one is open a replay shows and calls `Board::none`.
    pub(crate) fn new() -> Player {
        Player {
            board: Board::none(),
            sums: Buffers::new(),
            floats: Buffers::new(),
            words: ArrayVec::new(),
        }
    }

    // A refused Open leaves the board that was there.
    fn open(&mut self, sides: Sides) -> Answer {
        self.board = Board::open(sides)?;
        Ok(())
    }

    // Update with the first bytes of a list. Here and below `inline(never)`: room for all that a list can have is made at each call of a function that has it, and in `run`
    // it would be made at every command.
    #[inline(never)]
    fn update(&mut self, count: usize, list: &[i64]) -> Answer
        requires { count ≤ 4096 }
    {
        control::update(&mut self.board, &bytes_of(list)[..count])
    }

    // Feed with the first readings of a list.
    #[inline(never)]
    fn feed(&mut self, kind: Kind, same: bool, count: usize, list: &[i64]) -> Answer
        requires { count ≤ 4096 }
    {
        let readings = &shorts_of(same, list)[..count];
        match kind {
            Kind::WholeNumbers => feed(&mut self.board, readings, self.sums.lent_mut()),
            Kind::Floats => feed(&mut self.board, readings, self.floats.lent_mut()),
        }
    }

    // Read out. A taken one leaves its frame as the words.
    #[inline(never)]
    fn read_out(&mut self, kind: Kind, count: usize) -> Answer
        requires { count ≤ 4096 }
    {
        let mut frame = [0; MOST];
        let words = &mut frame[..count];
        match kind {
            Kind::WholeNumbers => read_out(&mut self.board, self.sums.lent(), words)?,
            Kind::Floats => read_out(&mut self.board, self.floats.lent(), words)?,
        }
        set_items(&frame[..count], &mut self.words);
        Ok(())
    }

    // The answer of a call, and the board that it leaves.
    fn show(&self, out: &mut impl Write, answer: Answer) -> fmt::Result {
        let answered = Answered(answer.map(|_| "taken"));
        let board = Shown(self.board);
        writeln!(out, "{answered}\n{board}")
    }

    // Read out, and the frame if it is taken.
    fn frame(&mut self, out: &mut impl Write, kind: Kind, count: usize) -> fmt::Result
        requires { count ≤ 4096 }
    {
        let answer = self.read_out(kind, count);
        self.show(out, answer)?;
        if answer.is_ok() {
            write!(out, "{}", Tens(self.words.as_slice()))?;
        }
        Ok(())
    }

    fn replace(&mut self, length: usize, entry: AnyEntry) {
        match entry {
            AnyEntry::WholeNumber(entry) => self.sums.replace(length, entry),
            AnyEntry::Float(entry) => self.floats.replace(length, entry),
        }
    }

    fn poke(&mut self, index: usize, entry: AnyEntry) -> bool {
        match entry {
            AnyEntry::WholeNumber(entry) => self.sums.poke(index, entry),
            AnyEntry::Float(entry) => self.floats.poke(index, entry),
        }
    }

    fn swap(&mut self, kind: Kind) {
        match kind {
            Kind::WholeNumbers => self.sums.swap(),
            Kind::Floats => self.floats.swap(),
        }
    }

    // Some entries of a kind, from a place on: whole numbers as they are, floats by the halves of their patterns.
    fn print(&self, out: &mut impl Write, kind: Kind, start: usize, count: usize) -> fmt::Result
        requires { (start ≤ 4096) × (count ≤ 4096) }
    {
        let places = start..start + count;
        match kind {
            Kind::WholeNumbers => match self.sums.lent().get(places) {
                Some(sums) => write!(out, "taken\n{}", Tens(sums)),
                None => writeln!(out, "outside"),
            },
            Kind::Floats => match self.floats.lent().get(places) {
                Some(floats) => print_floats(out, floats),
                None => writeln!(out, "outside"),
            },
        }
    }

    // The first words of a list are the words.
    #[inline(never)]
    fn set_words(&mut self, count: usize, list: &[i64])
        requires { count ≤ 4096 }
    {
        set_items(&shorts_of(false, list)[..count], &mut self.words);
    }

    // The words as a frame: a command names the width and the height, and the words stand here.
    fn words_as(&self, width: usize, height: usize) -> Frame<'_> {
        Frame {
            words: self.words.as_slice(),
            width,
            height,
        }
    }

    // A command, of a closed set: so a `match`. The list has the bytes of an update, the readings of a feed and the words, of which the first are taken as its count says.
    fn run(&mut self, out: &mut impl Write, command: Command, list: &[i64]) -> fmt::Result
        requires { InRange command }
    {
        match command {
            Command::Open(sides) => {
                let answer = self.open(sides);
                self.show(out, answer)
            }
            Command::Board(board) => {
                self.board = board;
                self.show(out, Ok(()))
            }
            Command::Update(count) => {
                let answer = self.update(count, list);
                self.show(out, answer)
            }
            Command::Start => {
                let answer = control::start(&mut self.board);
                self.show(out, answer)
            }
            Command::Feed { kind, count, same } => {
                let answer = self.feed(kind, same, count, list);
                self.show(out, answer)
            }
            Command::ReadOut { kind, count } => self.frame(out, kind, count),
            Command::Drop => {
                let answer = control::drop(&mut self.board);
                self.show(out, answer)
            }
            Command::Covered => {
                let covered = covered(self.board);
                let answered = Answered(covered.map(|yes| if yes {
                    "covered"
                } else {
                    "uncovered"
                }));
                writeln!(out, "{answered}")
            }
            Command::Word { word, truncation } => {
                writeln!(
                    out,
                    "{}",
                    Answered(read_word(truncation, word).map(Meaning))
                )
            }
            Command::Replace { length, entry } => {
                self.replace(length, entry);
                writeln!(out, "taken")
            }
            Command::Poke { index, entry } => {
                let inside = self.poke(index, entry);
                writeln!(out, "{}", if inside { "taken" } else { "outside" })
            }
            Command::Swap(kind) => {
                self.swap(kind);
                writeln!(out, "taken")
            }
            Command::Print { kind, start, count } => self.print(out, kind, start, count),
            Command::Words(count) => {
                self.set_words(count, list);
                writeln!(out, "taken")
            }
            Command::Nearest {
                width,
                height,
                place,
            } => {
                let frame = self.words_as(width, height);
                writeln!(out, "{}", Answered(nearest_flag(frame, place).map(Flag)))
            }
            Command::Count {
                width,
                height,
                first,
                last,
            } => {
                let frame = self.words_as(width, height);
                writeln!(
                    out,
                    "{}",
                    Answered(count_flags(frame, first, last).map(Flags))
                )
            }
        }
    }

    // Plays a line that is not malformed. Its numbers go into the list.
    pub(crate) fn play(
        &mut self,
        out: &mut impl Write,
        line: &[u8],
        list: &mut Numbers,
    ) -> fmt::Result {
        match said(line, list) {
            Ok(Some(command)) => self.run(out, command, list.as_slice()),
            _ => Ok(()),
        }
    }
}
