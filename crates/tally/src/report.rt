// What is printed of a tally.
ghost use Rattle.std.specs.Prelude.{Some};
ghost use Rattle.tally.specs.Report.{band_line, first_line, left_line, report_text};

use crate::counts::First;
use crate::tally::Tally;
use kinds::Band;
use std::fmt;

// The line of a band: its number, and how many samples it has.
#[derive(Clone, Copy)]
struct BandLine {
    band: Band,
    samples: u64,
}

impl fmt::Display for BandLine {
    ghost output = { λ l. Some (band_line l.band l.samples) };

    fn fmt<W: fmt::Write>(&self, f: &mut fmt::Formatter<W>) -> fmt::Result {
        writeln!(f, "band {} {}", u16::from(self.band), self.samples)
    }
}

// The line of a band's first sample, or nothing.
#[derive(Clone, Copy)]
struct FirstLine {
    band: Band,
    first: Option<First>,
}

impl fmt::Display for FirstLine {
    ghost output = { λ l. Some (first_line l.band l.first) };

    fn fmt<W: fmt::Write>(&self, f: &mut fmt::Formatter<W>) -> fmt::Result {
        let Some(first) = self.first else {
            return Ok(());
        };
        writeln!(
            f,
            "first {} {} {}",
            u16::from(self.band),
            first.index,
            first.count.value()
        )
    }
}

// The line of what is left over, or nothing.
#[derive(Clone, Copy)]
struct LeftLine {
    bytes: u8,
}

impl fmt::Display for LeftLine {
    ghost output = { λ l. Some (left_line l.bytes) };

    fn fmt<W: fmt::Write>(&self, f: &mut fmt::Formatter<W>) -> fmt::Result {
        if self.bytes == 0 {
            return Ok(());
        }
        writeln!(f, "left over {}", self.bytes)
    }
}

impl fmt::Display for Tally {
    ghost output = { λ t. Some (report_text t) };

    fn fmt<W: fmt::Write>(&self, f: &mut fmt::Formatter<W>) -> fmt::Result {
        let counts = self.counts();
        let samples = counts.samples;
        let usable = BandLine {
            band: Band::Usable,
            samples: counts.usable.samples,
        };
        let near_rail = BandLine {
            band: Band::NearRail,
            samples: counts.near_rail.samples,
        };
        let rail = BandLine {
            band: Band::Rail,
            samples: counts.rail.samples,
        };
        let first_near_rail = FirstLine {
            band: Band::NearRail,
            first: counts.near_rail.first,
        };
        let first_rail = FirstLine {
            band: Band::Rail,
            first: counts.rail.first,
        };
        let left = LeftLine {
            bytes: self.left_over(),
        };
        write!(
            f,
            "samples {samples}\n{usable}{near_rail}{rail}{first_near_rail}{first_rail}{left}"
        )
    }
}
