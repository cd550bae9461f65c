// What a kind of keys, a kind of values and a change of values are, and what holds of any.
#![tactic(auto)]

mod change;
mod fill;
mod key;
mod nothing;
mod ordered_key;
mod pair;
mod retire;
mod value;

pub use change::Change;
pub use fill::Fill;
pub use key::Key;
pub use nothing::Nothing;
pub use ordered_key::OrderedKey;
pub use pair::{Pair, PairWith};
pub use retire::Retire;
pub use value::{EqValue, Value};
