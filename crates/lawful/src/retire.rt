// Retire: makes values equal to its own none, and keeps others.
ghost use Rattle.std.specs.Prelude.{◌≡◌, true, Option};
ghost use Rattle.lawful.specs.Equals.{same, retired};
ghost use Rattle.lawful.specs.EqualsLemmas.{retired_respects};

use crate::change::Change;
use crate::value::Value;

#[derive(Clone, Copy)]
pub struct Retire<V> {
    pub value: V,
}

impl<V: Value> Change<V> for Retire<V> {
    ghost makes = { λ c a. retired V.equals c.value a };

    ghost respects = { λ c a b e. retired_respects V.equals V.Value.lawful c.value a b e };

    fn apply(&self, value: Option<V>) -> Option<V>
        ensures { (a : Option V) → same V.equals value a ≡ true → same V.equals result (retired V.equals self.now.value a) ≡ true }
    {
        value.filter(|v| !v.equals(&self.value))
    }
}
