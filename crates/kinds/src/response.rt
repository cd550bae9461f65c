// A response: its number, from 1 on, and its polarity.
ghost use Rattle.std.specs.Prelude.{◌≡◌, ◌<◌, ◌↔◌, IsTrue, MatchResult};

use crate::polarity::Polarity;
use crate::refusal::KindRefusal;
use lawful::EqValue;

#[derive(Clone, Copy, PartialEq, Eq)]
pub struct Response {
    number: u16,
    polarity: Polarity,
    ghost from: { 0 < number },
}

impl EqValue for Response {}

impl Response {
    // From both fields: a constructor, as no one value is converted.
    pub fn new(number: u16, polarity: Polarity) -> Result<Response, KindRefusal>
        ensures { MatchResult result (λ v. (v.number ≡ number) × (v.polarity ≡ polarity)) (λ e. (e ≡ KindRefusal.BadKey) × (number ≡ 0)) }
    {
        if number == 0 {
            Err(KindRefusal::BadKey)
        } else {
            Ok(Response { number, polarity })
        }
    }

    pub fn number(&self) -> u16
        ensures { result ≡ self.now.number }
    {
        self.number
    }

    pub fn polarity(&self) -> Polarity
        ensures { result ≡ self.now.polarity }
    {
        self.polarity
    }

    // What `==` answers: whether number and polarity agree.
    pub fn equals(&self, other: &Response) -> bool
        ensures derived { result ≡ ⟦<Response as PartialEq>⟧.eq self.now other.now }
        ensures fields { IsTrue result ↔ ((self.now.number ≡ other.now.number) × (self.now.polarity ≡ other.now.polarity)) }
    {
        self == other
    }
}
