//! A job of the jig: from the bytes of an input to the words of its frame, or a refusal.
#![tactic(auto)]

ghost use Rattle.std.specs.Prelude.{◌≡◌, ◌≤◌, cond, ◌/◌, Ok, length, take};
ghost use Rattle.checks.specs.Checks.{or_refused};
ghost use Rattle.jig_input.specs.Checks.{opened_by};
ghost use Rattle.jig_input.specs.Input.{max_pixels};
ghost use Rattle.jig_job.specs.Job.{padded, result_of};

use arrayvec::ArrayVec;
use begin::begin_on;
use board::Board;
use checks::Refusal;
use jig_input::{Input, PIXELS};
use jig_numbers::decode_readings;
use read_out::word_count;
use sides::Sides;
use whole_frame::frame_on;

// One reading more than the largest job wants: a reading too many is still seen.
const READINGS: usize = 9 * PIXELS + 1;

/// How much of an input matters: six bytes, a record of 255 bytes, and these readings.
pub const CAPACITY: usize = 6 + 255 + 2 * READINGS;

/// What comes of a taken job: how many words stand in a row of its frame, the r by which they are read, and the words, which are the first `count` of the array.
/// It can be copied, which no vector can.
#[derive(Clone, Copy, Debug, PartialEq, Eq)]
pub struct Job {
    pub columns: usize,
    pub truncation: u16,
    pub count: usize,
    pub words: [u16; PIXELS],
}

impl Job {
    /// The words of the frame.
    pub fn frame(&self) -> &[u16]
        ensures words { result.now ≡ take self.now.count self.now.words }
        ensures few { length result.now ≤ max_pixels }
    {
        self.words.get(..self.count).unwrap_or(&self.words)
    }
}

// How many words a row has.
fn columns(sides: Sides) -> usize
    ensures { result ≡ cond sides.binned (sides.width / 2) sides.width }
{
    if sides.binned {
        sides.width / 2
    } else {
        sides.width
    }
}

// Words in the array of a job. Zeros stand behind them.
fn padded(words: &[u16]) -> [u16; PIXELS]
    requires { length words.now ≤ max_pixels }
    ensures { result ≡ padded words.now }
{
    let mut array = [0; PIXELS];
    array[..words.len()].copy_from_slice(words);
    array
}

// A job on the board that its input opened.
fn carry_out(input: Input, opened: Board) -> Result<Job, Refusal>
    requires { let o = opened_by input.kept.now input.total in Ok opened ≡ or_refused o.answer o.board }
    ensures { result ≡ result_of input.entry.kept.now input.entry.total }
{
    let kept = input.kept;
    let from = kept.len().min(6);
    let start = kept.len().min(input.readings_at());
    let fed = ((kept.len() - start) / 2).min(READINGS);
    let board = begin_on(opened, &kept[from..start])?;
    let mut readings = ArrayVec::from([0u16; READINGS]);
    readings.truncate(fed);
    decode_readings(&kept[start..start + 2 * fed], readings.as_mut_slice());
    let mut sums = ArrayVec::from([0i32; PIXELS]);
    sums.truncate(board.sides.area());
    let mut words = ArrayVec::from([0u16; PIXELS]);
    words.truncate(word_count(board.sides));
    frame_on(board, &readings, sums.as_mut_slice(), words.as_mut_slice())?;
    Ok(Job {
        columns: columns(board.sides),
        truncation: board.in_force.truncation,
        count: words.len(),
        words: padded(words.as_slice()),
    })
}

/// A job: Open, Update, Start, Feed of all readings and Read out. It takes an input, and gives the words of the frame, how many stand in a row, and the r in force; or the first
/// refusal: 17 of the input, 1 of Open, 18 of the input, then those of Update, Start, Feed and Read out.
/// `result_of` of specs/Job says so.
#[tactic(auto, using(crate::proofs::Jobs::input_refused))]
pub fn result_of(input: Input) -> Result<Job, Refusal>
    ensures { result ≡ result_of input.entry.kept.now input.entry.total }
{
    carry_out(input, input.open()?)
}
