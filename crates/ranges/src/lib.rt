// Ranges over the keys of a lawful kind: their ends, how two of them lie, and what is made of two.
#![tactic(auto)]

mod range;

pub use range::{
    AnyRange, BoundOrdering, Difference, Directed, Product, ProductArg, RangeOrdering, Side,
    invert_bound,
};
