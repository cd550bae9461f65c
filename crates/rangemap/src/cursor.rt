// Where a walk over the places of a kind's keys stands.
ghost use Rattle.std.specs.Prelude.{◌≡◌, ◌+◌, ◌<◌, ◌≤◌, MatchOption};

use lawful::Key;

// A place, and the number of places from it on. No kind of keys stands in its type, since a walker takes a map of any.
#[derive(Clone, Copy)]
pub(crate) struct Cursor {
    pub(crate) place: u64,
    pub(crate) left: u64,
}

impl Cursor {
    // Before the first place of a kind's keys.
    pub(crate) fn new<K: Key>() -> Cursor
        ensures place { result.place ≡ 0 }
        ensures left { result.left ≡ K.COUNT }
    {
        Cursor {
            place: 0,
            left: K::COUNT,
        }
    }

    // Moves on to a later place that is in reach, and else stays.
    pub(crate) fn move_to(&mut self, place: u64) -> Option<()>
        ensures { MatchOption result ((self.new ≡ self.old) × (self.old.place < place → place ≤ self.old.place + self.old.left → ⊥)) (λ _. (self.new.place ≡ place) × (self.new.left < self.old.left) × (place + self.new.left ≡ self.old.place + self.old.left)) }
    {
        if place <= self.place {
            return None;
        }
        self.left = self.left.checked_sub(place - self.place)?;
        self.place = place;
        Some(())
    }
}
