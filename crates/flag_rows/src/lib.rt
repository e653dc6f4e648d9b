//! The nearest flag of one row.
#![tactic(auto)]

ghost use Rattle.std.specs.Prelude.{ℕ, ◌≡◌, true, false, not, ◌||◌, ◌≤◌, ◌<◌, length, fold};
ghost use Rattle.meaning.specs.Meaning.{is_flag};
ghost use Rattle.places.specs.Places.{flag_at, apart};
ghost use Rattle.places.specs.Finding.{nearest_at};
ghost use Rattle.flag_rows.specs.SupportClear.{ClearTo};

use meaning::is_flag;

// Whether no word is a flag: a fold of its own, as in `readings`. With no early exit the compiler makes vector code of it, which asks many words at once.
fn no_flag(words: &[u16]) -> bool
    ensures { result ≡ not (fold (λ any w. any || is_flag w) false words.now) }
{
    !words.iter().fold(false, |any, w| any | is_flag(*w))
}

// A row that is searched for the nearest flag to one of its columns. How far it is clear, `ClearTo`, grows from one call to the next, so it stands in their contracts.
#[derive(Clone, Copy)]
struct RowSearch<'a> {
    row: &'a [u16],
    column: usize,
    ghost inside: { (column < length row.now) × (length row.now ≤ 1024) },
}

impl RowSearch<'_> {
    // Whether no flag lies from `near` to below `far` away from the column, on either side.
    fn none_between(self, near: usize, far: usize) -> bool
        requires { (near ≤ far) × (far ≤ 4096) }
        ensures { result ≡ true → ClearTo self.entry.row.now self.entry.column near → ClearTo self.entry.row.now self.entry.column far }
    {
        let RowSearch { row, column, .. } = self;
        let left_start = (column + 1).saturating_sub(far);
        let left_end = (column + 1).saturating_sub(near);
        let right_start = row.len().min(column + near);
        let right_end = row.len().min(column + far);
        no_flag(&row[left_start..left_end]) & no_flag(&row[right_start..right_end])
    }

    // How far from the column the row has no flag, asked part by part from `near` on, up to a part that has one.
    // A part that begins `n` away ends `part_end(n)` away.
    fn clear_to<F: Fn(usize) -> usize>(self, near: usize, part_end: F) -> usize
        requires clear_to { ClearTo self.row.now self.column near }
        requires callable { (n : ℕ) → n ≤ 1024 → F.pre part_end n }
        requires further { (n end : ℕ) → n ≤ 1024 → F.post part_end n end → (n < end) × (end ≤ 4096) }
        ensures { ClearTo self.entry.row.now self.entry.column result }
    {
        let mut clear = near;
        // A `while`: no range has parts that grow, and `successors` would need a second closure, which asks each part, around `part_end`.
        while clear < self.row.len() {
            let far = part_end(clear);
            if !self.none_between(clear, far) {
                break;
            }
            clear = far;
        }
        clear
    }

    // The nearest flag, where none is nearer than `near`: one step further each time, to the left and then to the right.
    fn outward(self, near: usize) -> Option<usize>
        requires { ClearTo self.row.now self.column near }
        ensures { result ≡ nearest_at (length self.entry.row.now) (flag_at self.entry.row.now) (apart self.entry.column) }
    {
        let RowSearch { row, column, .. } = self;
        // Asked by index, after a test: with `get` in both places the search takes a sixth longer, and no ratio of the bench may get worse. Past the left end the first column is asked again.
        for away in near..row.len() {
            let left = column.saturating_sub(away);
            let right = column + away;
            if is_flag(row[left]) {
                return Some(left);
            }
            if right < row.len() && is_flag(row[right]) {
                return Some(right);
            }
        }
        None
    }
}

/// The column of the nearest flag of a row, the left one of two: by parts that grow, then by short ones, then word by word. Of what it requires it makes a `RowSearch`, and its
/// caller has a row alone.
pub fn nearest_column(row: &[u16], column: usize) -> Option<usize>
    requires { (column < length row.now) × (length row.now ≤ 1024) }
    ensures { result ≡ nearest_at (length row.now) (flag_at row.now) (apart column) }
{
    let search = RowSearch { row, column };
    let far = search.clear_to(0, |near| 2 * near + 64);
    let near = search.clear_to(far, |near| near + 64);
    search.outward(near)
}
