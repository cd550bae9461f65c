// How many samples each band has, and where its first one stands. Numbers stop at 2^64 - 1.
ghost use Rattle.std.specs.Prelude.{◌≡◌, ◌≢◌, ◌+◌};

use kinds::{Band, RawCount};

// A band's first sample: its index among all samples, from 0, and its raw count.
#[derive(Clone, Copy)]
pub struct First {
    pub index: u64,
    pub count: RawCount,
}

#[derive(Clone, Copy, Default)]
pub struct BandTally {
    pub samples: u64,
    pub first: Option<First>,
}

impl BandTally {
    ghost use Rattle.tally.specs.Counting.{GainsSample};

    // One sample more of this band, at the index among all samples.
    fn add(&mut self, index: u64, count: &RawCount)
        ensures { GainsSample self.old self.new index count.now }
    {
        self.first = self.first.or(Some(First {
            index,
            count: *count,
        }));
        self.samples = self.samples.saturating_add(1);
    }
}

#[derive(Clone, Copy, Default)]
pub struct Counts {
    pub samples: u64,
    pub usable: BandTally,
    pub near_rail: BandTally,
    pub rail: BandTally,
}

impl Counts {
    ghost use Rattle.tally.specs.Counting.{capped, tally_in, GainsSample};

    // One sample more, which has the band.
    pub(crate) fn add(&mut self, count: &RawCount, band: Band)
        ensures number { self.new.samples ≡ capped (self.old.samples + 1) }
        ensures gains { GainsSample (tally_in self.old band) (tally_in self.new band) self.old.samples count.now }
        ensures others { (b : Band) → b ≢ band → tally_in self.new b ≡ tally_in self.old b }
    {
        let index = self.samples;
        match band {
            Band::Usable => self.usable.add(index, count),
            Band::NearRail => self.near_rail.add(index, count),
            Band::Rail => self.rail.add(index, count),
        }
        self.samples = index.saturating_add(1);
    }
}
