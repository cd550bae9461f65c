// A tally of a recorder's raw samples by band, taken chunk by chunk.
#![tactic(auto)]

mod counts;
mod part;
mod report;
mod tally;

pub use counts::{BandTally, Counts, First};
pub use tally::{Tally, tally_of};
