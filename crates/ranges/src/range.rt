// What two ranges share, and what one has outside the other.
ghost use Rattle.std.specs.Prelude.{◌≡◌};
ghost use Rattle.ranges.specs.Places.{low, high};
ghost use Rattle.ranges.specs.Ranges.{Same, shared, meets, connects, vacant, upto, onward};
ghost use Rattle.ranges.specs.Parts.{span, ends, Cropped, Leaves, Multiplies};

mod any;
mod bound;
mod ordering;

pub use any::AnyRange;
pub use bound::{Directed, Side, invert_bound};
use bound::{max_bound, min_bound};
use lawful::Key;
pub use ordering::{BoundOrdering, RangeOrdering};
use std::ops::Bound;

impl<K: Key> AnyRange<K> {
    // Whether the two share a key. (This and the next are a line each, as in the Rust, over the answer of one comparison.)
    pub fn intersects(&self, other: &AnyRange<K>) -> bool
        ensures { result ≡ meets (span K.Key.own self.now) (span K.Key.own other.now) }
    {
        self.range_partial_cmp(other)
            .is_some_and(|order| order.matches(false))
    }

    // Whether the two, both with keys, share one or touch.
    pub fn connected_to(&self, other: &AnyRange<K>) -> bool
        ensures { result ≡ connects (span K.Key.own self.now) (span K.Key.own other.now) }
    {
        self.range_partial_cmp(other)
            .is_some_and(|order| order.matches(true))
    }

    // The shared keys.
    pub fn intersected_with(&self, other: &AnyRange<K>) -> AnyRange<K>
        ensures { Same (span K.Key.own result) (shared (span K.Key.own self.now) (span K.Key.own other.now)) }
    {
        AnyRange {
            start: max_bound(self.start, other.start, Side::Start),
            end: min_bound(self.end, other.end, Side::End),
        }
    }

    // The keys of this range outside the other.
    pub fn without(&self, other: &AnyRange<K>) -> Difference<K>
        ensures { Leaves K.Key.own (span K.Key.own self.now) (span K.Key.own other.now) result }
    {
        if self.is_empty() {
            return Difference::Empty;
        }
        if other.is_empty() {
            return Difference::Before(*self);
        }
        // an end at one place takes the form that the other start gives
        let left = invert_bound(other.start)
            .map(|end| min_bound(end, self.end, Side::End))
            .and_then(|end| AnyRange::new(self.start, end).if_held());
        match (left, crop_left(self, other.end)) {
            (Some(left), None) => Difference::Before(left),
            (None, Some(right)) => Difference::After(right),
            (Some(left), Some(right)) => Difference::Split(left, right),
            (None, None) => Difference::Empty,
        }
    }

    // The shared keys, and what either range has before and after them.
    pub fn product(&self, other: &AnyRange<K>) -> Product<K>
        ensures { Multiplies K.Key.own (span K.Key.own self.now) (span K.Key.own other.now) result }
    {
        if self.is_empty() || other.is_empty() {
            return Product {
                before: None,
                intersection: None,
                after: None,
            };
        }
        let before = crop_right(self, other.start)
            .map(ProductArg::Subject)
            .or_else(|| crop_right(other, self.start).map(ProductArg::Object));
        let intersection = self.intersected_with(other).if_held();
        let after = crop_left(self, other.end)
            .map(ProductArg::Subject)
            .or_else(|| crop_left(other, self.end).map(ProductArg::Object));
        Product {
            before,
            intersection,
            after,
        }
    }
}

// What of the range lies above the other end, if any. A start at one place takes the form that the other end gives.
fn crop_left<K: Key>(range: &AnyRange<K>, other_end: Bound<K>) -> Option<AnyRange<K>>
    ensures { Cropped K.Key.own (onward (span K.Key.own range.now) (high K.Key.own other_end)) result }
{
    let start = max_bound(invert_bound(other_end)?, range.start, Side::Start);
    AnyRange::new(start, range.end).if_held()
}

// What of the range lies below the other start, if any. An end at one place keeps the range's own form.
fn crop_right<K: Key>(range: &AnyRange<K>, other_start: Bound<K>) -> Option<AnyRange<K>>
    ensures { Cropped K.Key.own (upto (span K.Key.own range.now) (low K.Key.own other_start)) result }
{
    let end = min_bound(range.end, invert_bound(other_start)?, Side::End);
    AnyRange::new(range.start, end).if_held()
}

// Part of the answer of `product`, by the Rust's names (an `Either` would say less): a part of the subject, `self`, or of the object, `other`.
#[derive(Clone, Copy)]
pub enum ProductArg<T> {
    Subject(AnyRange<T>),
    Object(AnyRange<T>),
}

// The answer of `product`.
#[derive(Clone, Copy)]
pub struct Product<T> {
    // what the range that starts earlier has below the start of the other
    pub before: Option<ProductArg<T>>,
    // the shared keys, if any
    pub intersection: Option<AnyRange<T>>,
    // what the range that ends later has above the end of the other
    pub after: Option<ProductArg<T>>,
}

// The answer of `without`, by the Rust's names (two Options would not).
#[derive(Clone, Copy)]
pub enum Difference<T> {
    // what lies before the other range, or the whole range where the other holds no key
    Before(AnyRange<T>),
    // what lies after the other range
    After(AnyRange<T>),
    // what lies before and what lies after
    Split(AnyRange<T>, AnyRange<T>),
    // nothing is left
    Empty,
}

// Whether no key lies from the start to the end.
fn is_range_empty<K: Key>(start: Bound<K>, end: Bound<K>) -> bool
    ensures { result ≡ vacant (ends K.Key.own start end) }
{
    matches!(
        Directed::Start(start).bound_cmp(&Directed::End(end)),
        BoundOrdering::Excluded(_)
    )
}
