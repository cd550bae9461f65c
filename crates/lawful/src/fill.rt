// Fill: gives its value where there is none, and keeps values.
ghost use Rattle.std.specs.Prelude.{◌≡◌, true, Option};
ghost use Rattle.lawful.specs.Equals.{same, filled};
ghost use Rattle.lawful.specs.EqualsLemmas.{filled_respects};

use crate::change::Change;
use crate::value::Value;

#[derive(Clone, Copy)]
pub struct Fill<V> {
    pub value: V,
}

impl<V: Value> Change<V> for Fill<V> {
    ghost makes = { λ c a. filled c.value a };

    ghost respects = { λ c a b e. filled_respects V.equals V.Value.lawful c.value a b e };

    fn apply(&self, value: Option<V>) -> Option<V>
        ensures { (a : Option V) → same V.equals value a ≡ true → same V.equals result (filled self.now.value a) ≡ true }
    {
        value.or(Some(self.value))
    }
}
