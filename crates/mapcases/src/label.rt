// A kind of values for examples: a number, equal by number.
use lawful::EqValue;

#[derive(Clone, Copy, PartialEq, Eq)]
pub struct Label {
    pub number: u16,
}

impl EqValue for Label {}
