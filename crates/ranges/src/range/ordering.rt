// How two ends, and two ranges, lie to one another.
ghost use Rattle.std.specs.Prelude.{◌≡◌, ◌+◌, if◌then◌else◌, ◌==◌};
ghost use Rattle.ranges.specs.Places.{Compares, apart, mark, directed, limit_of, opposite_of, side_of};
ghost use Rattle.ranges.specs.declared.range.bound.Side.{Side};
ghost use Rattle.ranges.specs.Ranges.{Span, Lies, Ordered, precedes, reaches};
ghost use Rattle.ranges.specs.Parts.{span};

use crate::range::any::AnyRange;
use crate::range::bound::{Directed, Side};
use lawful::Key;
use std::cmp::Ordering;
use std::ops::Bound;

// How one range lies to another; cases, flags and the option `connected` of its calls are the Rust's, for the two to be held
// side by side. The flags mean something of two ranges alone, so each call speaks of any two that lie so.
#[derive(Clone, Copy, Debug, PartialEq, Eq)]
pub enum RangeOrdering {
    // before it; the flag: they touch
    Before(bool),
    // they share a key; the flags: they start together, they end together
    Intersecting(bool, bool),
    // after it; the flag: they touch
    After(bool),
}

impl RangeOrdering {
    // Before the other; if touching ranges count as connected, with a key between.
    pub fn is_before(&self, connected: bool) -> bool
        ensures { (x y : Span) → Lies x y self.now → result ≡ precedes connected x y }
    {
        matches!(self, RangeOrdering::Before(touching) if !*touching || !connected)
    }

    // After the other; if touching ranges count as connected, with a key between. (Turning the ordering round to share
    // the line of `is_before` would be longer than the line.)
    pub fn is_after(&self, connected: bool) -> bool
        ensures { (x y : Span) → Lies x y self.now → result ≡ precedes connected y x }
    {
        matches!(self, RangeOrdering::After(touching) if !*touching || !connected)
    }

    // The two share a key; if touching ranges count as connected, or touch.
    pub fn matches(&self, connected: bool) -> bool
        ensures { (x y : Span) → Lies x y self.now → result ≡ reaches connected x y }
    {
        match self {
            RangeOrdering::Before(touching) | RangeOrdering::After(touching) => {
                *touching && connected
            }
            RangeOrdering::Intersecting(_, _) => true,
        }
    }
}

impl<K: Key> AnyRange<K> {
    // How this range lies to the other, absent where either holds no key.
    pub fn range_partial_cmp(&self, other: &AnyRange<K>) -> Option<RangeOrdering>
        ensures { Ordered (span K.Key.own self.now) (span K.Key.own other.now) result }
    {
        if self.is_empty() || other.is_empty() {
            return None;
        }
        let limit_after = direct_bound_eq(self.end, other.end, Side::End);
        let order = match direct_bound_cmp(self.start, other.start, Side::Start) {
            BoundOrdering::Included(limit_before) => {
                match inverse_bound_cmp(self.start, other.end, Side::End) {
                    BoundOrdering::Included(_) => {
                        RangeOrdering::Intersecting(limit_before, limit_after)
                    }
                    BoundOrdering::Excluded(touching) => RangeOrdering::After(touching),
                }
            }
            BoundOrdering::Excluded(_) => match inverse_bound_cmp(
                self.end,
                other.start,
                Side::Start,
            ) {
                BoundOrdering::Included(_) => RangeOrdering::Intersecting(false, limit_after),
                BoundOrdering::Excluded(touching) => RangeOrdering::Before(touching),
            },
        };
        Some(order)
    }
}

// How one end lies to another; cases and flags are the Rust's.
#[derive(Clone, Copy, Debug, PartialEq, Eq)]
pub enum BoundOrdering {
    // on the side that the other lets in; the flag: at one place
    Included(bool),
    // on the side that the other leaves out; the flag: right beside it
    Excluded(bool),
}

impl<K: Key> Directed<Bound<K>> {
    // A start against an end compares as ends do, an end against a start as starts do.
    pub fn bound_cmp(&self, other: &Directed<Bound<K>>) -> BoundOrdering
        ensures { Compares (side_of other.now) (mark K.Key.own self.now) (mark K.Key.own other.now) result }
    {
        match (*self, *other) {
            (Directed::Start(a), Directed::Start(b)) => direct_bound_cmp(a, b, Side::Start),
            (Directed::Start(a), Directed::End(b)) => inverse_bound_cmp(a, b, Side::End),
            (Directed::End(a), Directed::Start(b)) => inverse_bound_cmp(a, b, Side::Start),
            (Directed::End(a), Directed::End(b)) => direct_bound_cmp(a, b, Side::End),
        }
    }
}

// How many places apart two keys are.
fn apart<K: Key>(t: K, u: K) -> u64
    ensures { result ≡ apart (K.place t) (K.place u) }
{
    t.place().abs_diff(u.place())
}

// Whether the two keys are neighbours.
fn distance_zero<K: Key>(t: K, u: K) -> bool
    ensures { result ≡ (apart (K.place t) (K.place u) == 1) }
{
    apart(t, u) == 1
}

// Whether a bound that is Unbounded on this side has this key there.
fn is_limit<K: Key>(k: K, side: Side) -> bool
    ensures { result ≡ (K.place k == limit_of K.Key.own side) }
{
    k.compare(&side.limit()) == Ordering::Equal
}

// Whether the key stands right beside the one that `is_limit` asks for.
fn is_beside_limit<K: Key>(k: K, side: Side) -> bool
    ensures { result ≡ (apart (K.place k) (limit_of K.Key.own side) == 1) }
{
    distance_zero(k, side.limit())
}

// Two ends whose places lie as their keys do.
fn level<K: Key>(v1: K, v2: K, side: Side) -> BoundOrdering
    ensures { Compares side (K.place v1) (K.place v2) result }
{
    match v1.compare(&v2) {
        Ordering::Equal => BoundOrdering::Included(true),
        ord if ord == side.inward() => BoundOrdering::Included(false),
        _ => BoundOrdering::Excluded(distance_zero(v1, v2)),
    }
}

// The first lets its key in and the second leaves its own out: where these are one key, they stand side by side.
fn aside<K: Key>(v1: K, v2: K, side: Side) -> BoundOrdering
    ensures { Compares side (mark K.Key.own (directed side (Bound.Included v1))) (mark K.Key.own (directed side (Bound.Excluded v2))) result }
{
    match v1.compare(&v2) {
        Ordering::Equal => BoundOrdering::Excluded(true),
        ord if ord == side.inward() => BoundOrdering::Included(distance_zero(v1, v2)),
        _ => BoundOrdering::Excluded(false),
    }
}

// Two starts, or two ends. Kept apart from `inverse_bound_cmp`, as in the Rust: the nine cases differ.
pub(crate) fn direct_bound_cmp<K: Key>(b1: Bound<K>, b2: Bound<K>, side: Side) -> BoundOrdering
    ensures { Compares side (mark K.Key.own (directed side b1)) (mark K.Key.own (directed side b2)) result }
{
    match (b1, b2) {
        (Bound::Included(v1), Bound::Included(v2)) => level(v1, v2, side),
        (Bound::Included(v1), Bound::Excluded(v2)) => aside(v1, v2, side),
        (Bound::Included(v1), Bound::Unbounded) => BoundOrdering::Included(is_limit(v1, side)),
        (Bound::Excluded(v1), Bound::Included(v2)) => {
            if v2.compare(&v1) != side.inward() {
                return BoundOrdering::Included(false);
            }
            match apart(v1, v2) {
                1 => BoundOrdering::Included(true),
                2 => BoundOrdering::Excluded(true),
                _ => BoundOrdering::Excluded(false),
            }
        }
        (Bound::Excluded(v1), Bound::Excluded(v2)) => level(v1, v2, side),
        (Bound::Excluded(_), Bound::Unbounded) => BoundOrdering::Included(false),
        (Bound::Unbounded, Bound::Included(v2)) => {
            if is_limit(v2, side) {
                BoundOrdering::Included(true)
            } else {
                BoundOrdering::Excluded(is_beside_limit(v2, side))
            }
        }
        (Bound::Unbounded, Bound::Excluded(v2)) => BoundOrdering::Excluded(is_limit(v2, side)),
        (Bound::Unbounded, Bound::Unbounded) => BoundOrdering::Included(true),
    }
}

// Whether two starts, or two ends, are at one place.
fn direct_bound_eq<K: Key>(b1: Bound<K>, b2: Bound<K>, side: Side) -> bool
    ensures { result ≡ (mark K.Key.own (directed side b1) == mark K.Key.own (directed side b2)) }
{
    direct_bound_cmp(b1, b2, side) == BoundOrdering::Included(true)
}

// A bound that leaves out the key, against an Unbounded one of this side, which is the other; the same either way round.
fn beyond_limit<K: Key>(k: K, side: Side) -> BoundOrdering
    ensures forth { Compares side (mark K.Key.own (directed (opposite_of side) (Bound.Excluded k))) (mark K.Key.own (directed side Bound.Unbounded)) result }
    ensures back { Compares (opposite_of side) (mark K.Key.own (directed side Bound.Unbounded)) (mark K.Key.own (directed (opposite_of side) (Bound.Excluded k))) result }
{
    if is_limit(k, side) {
        BoundOrdering::Excluded(true)
    } else {
        BoundOrdering::Included(is_beside_limit(k, side))
    }
}

// A bound of the other side against one of this: an end against a start, or a start against an end.
pub(crate) fn inverse_bound_cmp<K: Key>(b1: Bound<K>, b2: Bound<K>, side: Side) -> BoundOrdering
    ensures { Compares side (mark K.Key.own (directed (opposite_of side) b1)) (mark K.Key.own (directed side b2)) result }
{
    match (b1, b2) {
        (Bound::Included(v1), Bound::Included(v2)) => level(v1, v2, side),
        (Bound::Included(v1), Bound::Excluded(v2)) => aside(v1, v2, side),
        (Bound::Included(v1), Bound::Unbounded) => BoundOrdering::Included(is_limit(v1, side)),
        (Bound::Excluded(v1), Bound::Included(v2)) => aside(v1, v2, side),
        (Bound::Excluded(v1), Bound::Excluded(v2)) => {
            if v1.compare(&v2) != side.inward() {
                return BoundOrdering::Excluded(false);
            }
            match apart(v1, v2) {
                1 => BoundOrdering::Excluded(true), // v2 [] v1
                2 => BoundOrdering::Included(true), // v2 [ x ] v1
                _ => BoundOrdering::Included(false), // v2 [ x .. y ] v1
            }
        }
        (Bound::Excluded(v1), Bound::Unbounded) => beyond_limit(v1, side),
        (Bound::Unbounded, Bound::Included(v2)) => {
            BoundOrdering::Included(is_limit(v2, side.opposite()))
        }
        (Bound::Unbounded, Bound::Excluded(v2)) => beyond_limit(v2, side.opposite()),
        (Bound::Unbounded, Bound::Unbounded) => BoundOrdering::Included(K::COUNT == 1),
    }
}
