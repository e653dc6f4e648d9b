//! The text of a job.
#![tactic(auto)]

ghost use Rattle.std.specs.Prelude.{◌≡◌};
ghost use Rattle.jig_report.specs.Text.{text_of};

use arrayvec::ArrayVec;
use jig_input::Input;
use jig_job::result_of;
use jig_lines::put_lines;
use jig_text::{put, put_refusal};

/// Room for the header and 1,024 lines of 106 bytes each, more than any line has.
pub const ROOM: usize = 21 + 1024 * 106;

/// The whole output for an input, into a vector, whatever it held: of a job that `result_of` takes, the header and a line for each word; of a refused one, the one line with the
/// refusal's number. Nothing is refused but as `result_of` refuses. `text_of` of specs/Text says so.
pub fn write_text(input: Input, out: &mut ArrayVec<u8, ROOM>)
    ensures { out.new.items ≡ text_of input.entry.kept.now input.entry.total }
{
    out.clear();
    match result_of(input) {
        Ok(job) => {
            put(out, b"row col word meaning\n");
            put_lines(out, job.columns, job.truncation, job.frame());
        }
        Err(refusal) => {
            put_refusal(out, refusal);
            put(out, b"\n");
        }
    }
}

/// The same text in a vector of its own. A program lends one instead: it is large, and each call that hands it on would copy it.
pub fn text_of(input: Input) -> ArrayVec<u8, ROOM>
    ensures { result.items ≡ text_of input.entry.kept.now input.entry.total }
{
    let mut out = ArrayVec::new();
    write_text(input, &mut out);
    out
}
