// A change turns a value or none into a value or none. A trait, and no closure, since it owes a law: equal values get equal answers.
ghost use Rattle.std.specs.Prelude.{◌≡◌, true, Option};
ghost use Rattle.lawful.specs.Equals.{same};

use crate::value::Value;

pub trait Change<V: Value> {
    // what it makes of a value or none, up to equality
    ghost makes: { Self → Option V → Option V };

    // To equal values, and to none, it gives equal answers every time; which of equal values is free.
    fn apply(&self, value: Option<V>) -> Option<V>
        ensures { (a : Option V) → same V.equals value a ≡ true → same V.equals result (makes self.now a) ≡ true };

    ghost respects: { (c : Self) (a b : Option V) → same V.equals a b ≡ true → same V.equals (makes c a) (makes c b) ≡ true };
}
