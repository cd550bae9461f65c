// The ends of a range.
ghost use Rattle.std.specs.Prelude.{◌≡◌, min, max};
ghost use Rattle.ranges.specs.Places.{Inverted, mark, directed, opposite_of, inward_of, limit_of};

use crate::range::ordering::{BoundOrdering, direct_bound_cmp};
use lawful::Key;
use std::cmp::Ordering;
use std::ops::Bound;

// The end right before a start, or the start right after an end.
pub fn invert_bound<K: Key>(bound: Bound<K>) -> Option<Bound<K>>
    ensures { Inverted K.Key.own bound result }
{
    match bound {
        Bound::Unbounded => None,
        Bound::Included(t) => Some(Bound::Excluded(t)),
        Bound::Excluded(t) => Some(Bound::Included(t)),
    }
}

// A start or an end, by the Rust's name (an `Either` would say less).
#[derive(Clone, Copy)]
pub enum Directed<T> {
    Start(T),
    End(T),
}

// Which of a range's two ends a bound is; the Rust has a flag for it.
#[derive(Clone, Copy, PartialEq, Eq)]
pub enum Side {
    Start,
    End,
}

impl Side {
    pub(crate) fn opposite(self) -> Side
        ensures { result ≡ opposite_of self }
    {
        match self {
            Side::Start => Side::End,
            Side::End => Side::Start,
        }
    }

    // How a key that a bound of this side lets in compares with the bound's own.
    pub(crate) fn inward(self) -> Ordering
        ensures { result ≡ inward_of self }
    {
        match self {
            Side::Start => Ordering::Greater,
            Side::End => Ordering::Less,
        }
    }

    // The key that a range which is Unbounded on this side has there.
    pub(crate) fn limit<K: Key>(self) -> K
        ensures { K.place result ≡ limit_of K.Key.own self }
    {
        match self {
            Side::Start => K::min(),
            Side::End => K::max(),
        }
    }
}

// The lower and the higher of two starts, or of two ends. At one place starts change places, and ends stay.
fn sorted<K: Key>(a: Bound<K>, b: Bound<K>, side: Side) -> (Bound<K>, Bound<K>)
    ensures low { mark K.Key.own (directed side result.0) ≡ min (mark K.Key.own (directed side a)) (mark K.Key.own (directed side b)) }
    ensures high { mark K.Key.own (directed side result.1) ≡ max (mark K.Key.own (directed side a)) (mark K.Key.own (directed side b)) }
{
    match (direct_bound_cmp(a, b, side), side) {
        (BoundOrdering::Included(_), Side::Start) | (BoundOrdering::Excluded(_), Side::End) => {
            (b, a)
        }
        (BoundOrdering::Included(_), Side::End) | (BoundOrdering::Excluded(_), Side::Start) => {
            (a, b)
        }
    }
}

// The lower of two starts, or of two ends.
pub(crate) fn min_bound<K: Key>(a: Bound<K>, b: Bound<K>, side: Side) -> Bound<K>
    ensures { mark K.Key.own (directed side result) ≡ min (mark K.Key.own (directed side a)) (mark K.Key.own (directed side b)) }
{
    sorted(a, b, side).0
}

// The higher of two starts, or of two ends.
pub(crate) fn max_bound<K: Key>(a: Bound<K>, b: Bound<K>, side: Side) -> Bound<K>
    ensures { mark K.Key.own (directed side result) ≡ max (mark K.Key.own (directed side a)) (mark K.Key.own (directed side b)) }
{
    sorted(a, b, side).1
}
