// Worked cases: public calls at the station's kinds, with their answers as contracts.
#![tactic(auto)]

mod key_ranges;
mod keys;
#[cfg(test)]
mod tests;

pub use key_ranges::{held, lens, pairs};
pub use keys::{counts, minus_five, no_day_366_in_2099, place_of_year_2000};
