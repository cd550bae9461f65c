// A range by its two ends, and what it holds.
ghost use Rattle.std.specs.Prelude.{◌≡◌, Decides};
ghost use Rattle.ranges.specs.Ranges.{Same, joined, vacant, size};
ghost use Rattle.ranges.specs.Parts.{span, Cropped, First, Last};
ghost use Rattle.ranges.specs.Contains.{Contains, Placed, holds};

use crate::range::bound::{Side, max_bound, min_bound};
use crate::range::is_range_empty;
use lawful::Key;
use std::ops::Bound;

#[derive(Clone, Copy)]
pub struct AnyRange<T> {
    pub start: Bound<T>,
    pub end: Bound<T>,
}

impl<T> AnyRange<T> {
    pub fn new(start: Bound<T>, end: Bound<T>) -> AnyRange<T>
        ensures { (result.start ≡ start) × (result.end ≡ end) }
    {
        AnyRange { start, end }
    }
}

impl<K: Key> AnyRange<K> {
    // Whether it holds no key.
    pub fn is_empty(&self) -> bool
        ensures { result ≡ vacant (span K.Key.own self.now) }
    {
        is_range_empty(self.start, self.end)
    }

    // The range itself, if it holds a key.
    pub(crate) fn if_held(self) -> Option<AnyRange<K>>
        ensures { Cropped K.Key.own (span K.Key.own self) result }
    {
        if is_range_empty(self.start, self.end) {
            None
        } else {
            Some(self)
        }
    }

    // Whether it holds the key, which is to pass both ends. `placed` is the theorem that these are the keys whose places lie in the span.
    pub fn contains(&self, key: &K) -> bool
        ensures passes { Decides result (Contains K.Key.own self.now key.now) }
        ensures places { result ≡ holds (span K.Key.own self.now) (K.place key.now) }
        ensures placed { Placed K.Key.own self.now key.now }
    {
        // by places, as `compare` goes
        let started = match self.start {
            Bound::Included(a) => a.place() <= key.place(),
            Bound::Excluded(a) => a.place() < key.place(),
            Bound::Unbounded => true,
        };
        let ended = match self.end {
            Bound::Included(b) => key.place() <= b.place(),
            Bound::Excluded(b) => key.place() < b.place(),
            Bound::Unbounded => true,
        };
        started && ended
    }

    // The number of keys held.
    pub fn len(&self) -> u64
        ensures { result ≡ size (span K.Key.own self.now) }
    {
        // by the places of its two ends: to test first whether it is empty, or to make its keys, would cost more
        let low = match self.start {
            Bound::Included(a) => a.place(),
            Bound::Excluded(a) => a.place() + 1,
            Bound::Unbounded => 0,
        };
        let high = match self.end {
            Bound::Included(b) => b.place() + 1,
            Bound::Excluded(b) => b.place(),
            Bound::Unbounded => K::COUNT,
        };
        high.saturating_sub(low)
    }

    // The first key held, if any.
    pub fn first(&self) -> Option<K>
        ensures { First K.Key.own (span K.Key.own self.now) result }
    {
        if self.is_empty() {
            return None;
        }
        match self.start {
            Bound::Included(a) => Some(a),
            Bound::Excluded(a) => a.succ(),
            Bound::Unbounded => Some(K::min()),
        }
    }

    // The last key held, if any. (`first` and `last` differ in each of three calls: shared text would hide which.)
    pub fn last(&self) -> Option<K>
        ensures { Last K.Key.own (span K.Key.own self.now) result }
    {
        if self.is_empty() {
            return None;
        }
        match self.end {
            Bound::Included(a) => Some(a),
            Bound::Excluded(a) => a.pred(),
            Bound::Unbounded => Some(K::max()),
        }
    }

    // Makes it run from the lower of the two starts to the higher of the two ends.
    pub fn add(&mut self, other: &AnyRange<K>)
        ensures { Same (span K.Key.own self.new) (joined (span K.Key.own self.old) (span K.Key.own other.now)) }
    {
        self.start = min_bound(self.start, other.start, Side::Start);
        self.end = max_bound(self.end, other.end, Side::End);
    }
}
