// The range map over raw counts, on worked examples.
#![tactic(auto)]

mod label;
mod labels;
#[cfg(test)]
mod tests;

pub use label::Label;
pub use labels::Labels;
