// A range that holds a key.
ghost use Rattle.std.specs.Prelude.{◌≡◌, ◌+◌, ◌≤◌, MatchOption};
ghost use Rattle.ranges.specs.Ranges.{Bare, Held};
ghost use Rattle.ranges.specs.Parts.{span as ends};

use lawful::Key;
use ranges::AnyRange;
use std::ops::Bound;

#[derive(Drop)]
pub(crate) struct HeldRange<K: Key> {
    pub(crate) range: AnyRange<K>,
    ghost held: { Held (ends K.Key range) },
}

impl<K: Key> HeldRange<K> {
    // The range, if it holds a key.
    pub(crate) fn new(range: AnyRange<K>) -> Option<HeldRange<K>>
        ensures { MatchOption result (Bare (ends K.Key.own range)) (λ key. key.range ≡ range) }
    {
        if range.is_empty() {
            None
        } else {
            Some(HeldRange { range })
        }
    }

    // The range of one key alone.
    pub(crate) fn single(key: K) -> HeldRange<K>
        ensures { ends K.Key.own result.range ≡ record { low = K.place key; high = K.place key + 1 } }
    {
        HeldRange {
            range: AnyRange::new(Bound::Included(key), Bound::Included(key)),
        }
    }
}
