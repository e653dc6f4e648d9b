//! Looking for the flags of a frame of words: the nearest to a place, and how many lie in a box.
#![tactic(auto)]

ghost use Rattle.std.specs.Prelude.{◌≡◌, not};
ghost use Rattle.checks.specs.Checks.{verdict, when};
ghost use Rattle.checks.specs.declared.Reason.TheVariants.{OutsideFrame};
ghost use Rattle.places.specs.Places.{is_inside};
ghost use Rattle.places.specs.Checks.{frame_checks, is_box};
ghost use Rattle.places.specs.Finding.{nearest_of};
ghost use Rattle.places.specs.Counting.{count_of};

use checks::{Answer, Reason, Refusal, refuse_when};
use flag_boxes::count_in_box;
use flag_search::search;
use places::{Frame, Place};
use sides::Sides;

fn is_inside(frame: Frame, place: Place) -> bool
    ensures { result ≡ is_inside frame.entry.width frame.entry.height place }
{
    place.row < frame.height && place.column < frame.width
}

// Whether two corners make a box of the frame.
fn is_box(frame: Frame, first: Place, last: Place) -> bool
    ensures { result ≡ is_box frame.entry.width frame.entry.height first last }
{
    is_inside(frame, first)
        && is_inside(frame, last)
        && first.row <= last.row
        && first.column <= last.column
}

// The checks of a frame, and then whether what is asked about lies inside it, which its caller has asked: an answer, and no switch.
#[tactic(auto, unfolding(checks::specs::Checks::verdict))]
fn check(frame: Frame, inside: bool) -> Answer
    ensures { result ≡ verdict (frame_checks frame.entry.words.now frame.entry.width frame.entry.height (when (not inside) OutsideFrame)) }
{
    let sides = Sides {
        width: frame.width,
        height: frame.height,
        binned: false,
    };
    refuse_when(!sides.are_taken(), Reason::OutsideFrame)?;
    refuse_when(frame.words.len() != sides.area(), Reason::WordsLength)?;
    refuse_when(!inside, Reason::OutsideFrame)
}

/// The nearest flag. It takes a frame and a place, and gives the place of the flag that is nearest by squared distance, the first in row order among equals, or none where the frame
/// has no flag. Refused, in this order, with 19 for a side, 16, and 19 for the place. `nearest_of` of places/specs/Finding says so.
#[tactic(auto, using(crate::proofs::Checked::searched), unfolding(places::specs::Finding::nearest_of))]
pub fn nearest_flag(frame: Frame, place: Place) -> Result<Option<Place>, Refusal>
    ensures { result ≡ nearest_of frame.entry.words.now frame.entry.width frame.entry.height place }
{
    check(frame, is_inside(frame, place))?;
    Ok(search(frame, place))
}

/// The flags in a box. It takes a frame and two corners, and gives how many flags lie in the box from the first corner to the last, its edges counted in.
/// Refused, in this order, with 19 for a side, 16, and 19 for the box. `count_of` of places/specs/Counting says so.
#[tactic(auto, using(crate::proofs::Checked::boxed), unfolding(places::specs::Counting::count_of))]
pub fn count_flags(frame: Frame, first: Place, last: Place) -> Result<usize, Refusal>
    ensures { result ≡ count_of frame.entry.words.now frame.entry.width frame.entry.height first last }
{
    check(frame, is_box(frame, first, last))?;
    Ok(count_in_box(frame, first, last))
}
