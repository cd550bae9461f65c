// The station's kinds: raw counts, samples, calendar seconds and instants; responses and bands.
#![tactic(auto)]

mod band;
mod calendar;
mod date;
mod instant;
mod polarity;
mod raw_count;
mod refusal;
mod response;
mod sample;
mod table;

pub use band::{Band, BandRow};
pub use calendar::CalendarSecond;
pub use date::Date;
pub use instant::Instant;
pub use polarity::Polarity;
pub use raw_count::RawCount;
pub use refusal::KindRefusal;
pub use response::Response;
pub use sample::Sample;
pub use table::{band_of, band_table};
