//! An entry of the sums, of either kind: what the passes do with one, so that one code serves both.
#![tactic(auto)]

ghost use Rattle.std.specs.Prelude.{◌≡◌, true, not, ◌≤◌, ◌<◌, length, get_or};
ghost use Rattle.checks.specs.Search.{first_place};
ghost use Rattle.settings.specs.Settings.{max_samples};
ghost use Rattle.readings.specs.Readings.{reading_in_range};
ghost use Rattle.step.specs.Step.{SampleInRange};
ghost use Rattle.engines.specs.Engine.{Engine, whole_numbers, floats, in_whole_numbers, in_floats};
ghost use Rattle.engines.specs.SupportRange.{entry_in_range_in};
ghost use Rattle.engines.specs.SupportPasses.{possible_after_in, step_by_in};
ghost use Rattle.engines.specs.Laws.{StandsFor};
ghost use Rattle.engines.proofs.Laws as Engines;

use step::Sample;

/// An entry of a kind, and the engine that its contracts cite.
pub trait Entry: Copy {
    ghost engine: { Engine Self };

    /// One reading of a sample.
    fn accumulate(sample: Sample, reading: u16, stored: &mut Self)
        requires sample_value { SampleInRange sample }
        requires reading_value { reading_in_range reading ≡ true }
        requires stored_value { 1 < sample.n → entry_in_range_in engine stored.old ≡ true }
        ensures { stored.new ≡ step_by_in engine sample reading stored.old };

    /// The place of the first entry that isn't possible after k samples.
    fn first_impossible(k: usize, sums: &[Self]) -> Option<usize>
        requires { (1 ≤ k) × (k ≤ max_samples) }
        ensures { result ≡ first_place (length sums.now) (λ p. not (possible_after_in engine k (get_or sums.now p engine.absent))) };

    /// The whole number that an entry stands for.
    fn whole(self) -> i32
        requires { entry_in_range_in engine self ≡ true }
        ensures { result ≡ engine.value_of self };

    ghost stands_for: { StandsFor engine };
}

impl Entry for i32 {
    ghost engine = { in_whole_numbers };

    ghost stands_for = { Engines.stands_for whole_numbers };

    fn accumulate(sample: Sample, reading: u16, stored: &mut Self) {
        step::accumulate(sample, reading, stored);
    }

    fn first_impossible(k: usize, sums: &[Self]) -> Option<usize> {
        impossible::first_impossible(k, sums)
    }

    fn whole(self) -> i32 {
        self
    }
}

impl Entry for f64 {
    ghost engine = { in_floats };

    ghost stands_for = { Engines.stands_for floats };

    fn accumulate(sample: Sample, reading: u16, stored: &mut Self) {
        float_step::accumulate(sample, reading, stored);
    }

    fn first_impossible(k: usize, sums: &[Self]) -> Option<usize> {
        float_entries::first_impossible(k, sums)
    }

    fn whole(self) -> i32 {
        float_entries::whole_of(self)
    }
}
