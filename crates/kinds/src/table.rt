// The constant band table, and the band of a raw count by it.
ghost use Rattle.std.specs.Prelude.{◌≡◌, Some};
ghost use Rattle.kinds.specs.Bands.{band_table, band_in, holds, rows_with};

use crate::band::{Band, BandRow};
use crate::raw_count::RawCount;

const TABLE: [BandRow; 5] = [
    BandRow {
        first: -8388608,
        last: -8388600,
        band: Band::Rail,
    },
    BandRow {
        first: -8388599,
        last: -8000000,
        band: Band::NearRail,
    },
    BandRow {
        first: -7999999,
        last: 7999999,
        band: Band::Usable,
    },
    BandRow {
        first: 8000000,
        last: 8388599,
        band: Band::NearRail,
    },
    BandRow {
        first: 8388600,
        last: 8388607,
        band: Band::Rail,
    },
];

// The rows, rising; every raw count lies in exactly one of them.
pub fn band_table() -> [BandRow; 5]
    ensures { result ≡ band_table }
{
    TABLE
}

impl BandRow {
    fn holds(&self, count: &RawCount) -> bool
        ensures { result ≡ holds self.now count.now.value }
    {
        self.first <= count.value() && count.value() <= self.last
    }
}

// The band of the first row that holds the count, if any does.
fn band_in(rows: &[BandRow], count: &RawCount) -> Option<Band>
    ensures { result ≡ band_in rows.now count.now.value }
{
    rows.iter().find(|row| row.holds(count)).map(|row| row.band)
}

// The band of the one row of the constant table that holds the count.
pub fn band_of(count: &RawCount) -> Band
    ensures found { band_in band_table count.now.value ≡ Some result }
    ensures alone { rows_with band_table count.now.value ≡ 1 }
{
    band_in(&band_table(), count).unwrap()
}
