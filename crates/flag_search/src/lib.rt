//! The search for the nearest flag, row by row.
#![tactic(auto)]

ghost use Rattle.std.specs.Prelude.{◌≡◌, ◌+◌, ◌*◌, ◌/◌, ◌≤◌, ◌<◌, length};
ghost use Rattle.sides.specs.Sides.{max_side, max_area};
ghost use Rattle.places.specs.Places.{flag_at};
ghost use Rattle.places.specs.Finding.{nearest_at, distance_from, placed};
ghost use Rattle.flag_search.specs.SupportRequires.{Searched};
ghost use Rattle.flag_search.specs.SupportKeys.{Least};
ghost use Rattle.flag_search.specs.SupportKeys as Def;

use flag_rows::nearest_column;
use places::{Frame, Place};
use sides::MAX_AREA;

// A squared distance and then an index, as one number: of two keys the lower is that of the nearer word, or of the first of two.
fn key(rows: usize, columns: usize, index: usize) -> usize
    requires { (rows ≤ max_side) × (columns ≤ max_side) × (index < max_area) }
    ensures { result ≡ (rows * rows + columns * columns) * max_area + index }
{
    (rows * rows + columns * columns) * MAX_AREA + index
}

// The lower of two keys.
fn lower(a: Option<usize>, b: Option<usize>) -> Option<usize>
    ensures { result ≡ Def.lower a b }
{
    match (a, b) {
        (Some(a), Some(b)) => Some(a.min(b)),
        _ => a.or(b),
    }
}

// The frame that is searched, and the place; both have been checked.
#[derive(Clone, Copy)]
struct Query<'a> {
    frame: Frame<'a>,
    place: Place,
    ghost checked: { Searched frame.words.now frame.width frame.height place },
}

impl Query<'_> {
    // The least key of the flags of a row; no key where the frame has no such row.
    #[tactic(auto, using(crate::proofs::RowKeys::row_none))]
    fn row_key(self, row: usize) -> Option<usize>
        ensures { Least self.entry.frame.words.now self.entry.frame.width self.entry.place (λ j. j / self.entry.frame.width ≡ row) result }
    {
        let Query { frame, place, .. } = self;
        if row >= frame.height {
            return None;
        }
        let start = row * frame.width;
        let end = start + frame.width;
        let column = nearest_column(&frame.words[start..end], place.column)?;
        Some(key(
            place.row.abs_diff(row),
            place.column.abs_diff(column),
            start + column,
        ))
    }

    // The least key of all flags, by rows further and further away. It stops where no later row can have a lower one.
    fn least_key(self) -> Option<usize>
        ensures { Least self.entry.frame.words.now self.entry.frame.width self.entry.place (λ j. j < length self.entry.frame.words.now) result }
    {
        let mut best = self.row_key(self.place.row);
        for away in 1..self.frame.height {
            if let Some(found) = best
                && found < key(away, 0, 0)
            {
                break;
            }
            // No `and_then`: a closure that holds the frame would need the clause of `row_key` once more.
            let above = match self.place.row.checked_sub(away) {
                Some(row) => self.row_key(row),
                None => None,
            };
            let below = self.row_key(self.place.row + away);
            best = lower(best, lower(above, below));
        }
        best
    }
}

/// The place of the nearest flag, if there is one.
pub fn search(frame: Frame, place: Place) -> Option<Place>
    requires { Searched frame.words.now frame.width frame.height place }
    ensures { result ≡ placed frame.entry.width (nearest_at (length frame.entry.words.now) (flag_at frame.entry.words.now) (distance_from frame.entry.width place)) }
{
    let index = Query { frame, place }.least_key()? % MAX_AREA;
    Some(Place {
        row: index / frame.width,
        column: index % frame.width,
    })
}
