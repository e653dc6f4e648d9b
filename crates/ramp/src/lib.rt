//! The sum of a ramp: the passes of Feed over readings and sums. The ranges of both, and of a sample's number, stand in each contract, as in `step`. Buffers are lent one by one, as in
//! `feed`.
#![tactic(auto)]

ghost use Rattle.std.specs.Prelude.{◌≡◌, true, ◌≤◌, ◌<◌, length};
ghost use Rattle.laws.specs.Lists.{every, over};
ghost use Rattle.settings.specs.Settings.{max_samples, in_range};
ghost use Rattle.readings.specs.Readings.{reading_in_range};
ghost use Rattle.step.specs.Step.{SampleInRange};
ghost use Rattle.engines.specs.Engine.{step_in};
ghost use Rattle.engines.specs.SupportRange.{entry_in_range_in};
ghost use Rattle.engines.specs.SupportPasses.{step_by_in};
ghost use Rattle.sums.specs.Feed.{sums_in};
ghost use Rattle.ramp.specs.SupportRequires.{Feedable};

use kinds::Entry;
use settings::Settings;
use step::Sample;

// Readings of one sample, and the entries of their pixels.
fn feed_part<E: Entry>(sample: Sample, readings: &[u16], sums: &mut [E])
    requires readings_len { length readings.now ≡ length sums.old }
    requires sample_value { SampleInRange sample }
    requires readings_value { every reading_in_range readings.now ≡ true }
    requires sums_value { 1 < sample.n → every (entry_in_range_in E.engine) sums.old ≡ true }
    ensures { sums.new ≡ over (step_by_in E.engine sample) readings.now sums.old }
{
    // No zip: of what is written through one a proof knows the length alone.
    for (i, entry) in sums.iter_mut().enumerate() {
        E::accumulate(sample, readings[i], entry);
    }
}

// Readings of sample n, and the entries of their pixels.
fn feed_sample<E: Entry>(settings: &Settings, n: usize, readings: &[u16], sums: &mut [E])
    requires readings_len { length readings.now ≡ length sums.old }
    requires le_n { (1 ≤ n) × (n ≤ max_samples) }
    requires settings_value { in_range settings.now ≡ true }
    requires readings_value { every reading_in_range readings.now ≡ true }
    requires sums_value { 1 < n → every (entry_in_range_in E.engine) sums.old ≡ true }
    ensures { sums.new ≡ over (λ x e. step_in E.engine settings.now n e x) readings.now sums.old }
{
    let sample = Sample {
        n,
        weight: settings.weight(n),
        threshold: settings.threshold,
    };
    feed_part(sample, readings, sums);
}

/// The writing pass of Feed: sample by sample, each over the part of the sums that its readings reach. No chunks: the first part may begin within a sample, and would be a second call beside
/// theirs.
pub fn write_sums<E: Entry>(settings: &Settings, fed: usize, readings: &[u16], sums: &mut [E])
    requires { Feedable E.engine settings.now fed readings.now sums.old }
    ensures { sums.new ≡ sums_in E.engine settings.now fed readings.now sums.old }
{
    let m = sums.len();
    let mut rest = readings;
    let mut at = fed;
    while !rest.is_empty() {
        let p = at % m;
        let k = rest.len().min(m - p);
        let (part, later) = rest.split_at(k);
        feed_sample(settings, at / m + 1, part, &mut sums[p..p + k]);
        rest = later;
        at += k;
    }
}
