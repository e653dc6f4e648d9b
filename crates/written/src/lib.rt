//! Check 14 of Feed: of the entries that the ramp has written and that this Feed brings a reading for, the first that isn't possible.
#![tactic(auto)]

ghost use Rattle.std.specs.Prelude.{◌≡◌, not, ◌+◌, ◌*◌, ◌-◌, ◌≤◌, ◌<◌, length, get_or};
ghost use Rattle.sides.specs.Sides.{max_area};
ghost use Rattle.settings.specs.Settings.{max_samples};
ghost use Rattle.checks.specs.Search.{first_place, shifted};
ghost use Rattle.engines.specs.SupportPasses.{possible_after_in};
ghost use Rattle.written.specs.Written.{impossible_at};

use kinds::Entry;

// The first from `start` to `end` that isn't possible for k: two places and no part, since the definition asks by place in all sums. The bounds of k are those of
// `Entry::first_impossible`.
fn first_between<E: Entry>(start: usize, end: usize, k: usize, sums: &[E]) -> Option<usize>
    requires { (start ≤ end) × (end ≤ length sums.now) × (1 ≤ k) × (k ≤ max_samples) }
    ensures { result ≡ shifted start (first_place (end - start) (λ i. not (possible_after_in E.engine k (get_or sums.now (start + i) E.engine.absent)))) }
{
    // Often there are none: a Feed within one sample reaches pixels of one kind alone.
    if start == end {
        return None;
    }
    E::first_impossible(k, &sums[start..end]).map(|place| start + place)
}

/// With c whole samples and q readings fed, the pixels before q have had c + 1 samples, and the first of them get another reading; those from q on have had c. Of the
/// readings to come only their count is asked. That the ramp wants as many is what check 12 has shown before.
pub fn first_impossible_written<E: Entry>(fed: usize, count: usize, sums: &[E]) -> Option<usize>
    requires { (0 < length sums.now) × (length sums.now ≤ max_area) × (fed + count ≤ max_samples * length sums.now) }
    ensures { result ≡ first_place (length sums.now) (impossible_at E.engine.absent (possible_after_in E.engine) (length sums.now) fed count sums.now) }
{
    if count == 0 {
        return None;
    }
    let m = sums.len();
    let c = fed / m;
    let q = fed % m;
    let low = first_between(0, q.min((q + count).saturating_sub(m)), c + 1, sums);
    if c == 0 {
        return low;
    }
    let end = (q + count).min(m);
    low.or_else(|| first_between(q, end, c, sums))
}
