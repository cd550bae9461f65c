// Ranges of raw counts: how many keys they hold, and how two of them lie.
ghost use Rattle.std.specs.Prelude.{◌≡◌, true, false, [], ◌∷◌, pos, neg_ℤ, ◌≤ℤ◌, Some};
ghost use Rattle.ranges.specs.declared.range.ordering.RangeOrdering.TheVariants.{Before};

use kinds::RawCount;
use ranges::{AnyRange, RangeOrdering};
use std::ops::Bound;

fn raw(value: i32) -> RawCount
    requires { (neg_ℤ (pos 8388608) ≤ℤ value) × (value ≤ℤ pos 8388607) }
    ensures { result.value ≡ value }
{
    RawCount::try_from(value).unwrap()
}

// How many keys (4, 5), (4, 6), 8388607 excluded to Unbounded, 8388600.., 7..=3 and (4, 4) hold.
pub fn lens() -> [u64; 6]
    ensures { result ≡ 0 ∷ 1 ∷ 0 ∷ 8 ∷ 0 ∷ 0 ∷ [] }
{
    let a = AnyRange::new(Bound::Excluded(raw(4)), Bound::Excluded(raw(5)));
    let b = AnyRange::new(Bound::Excluded(raw(4)), Bound::Excluded(raw(6)));
    let c = AnyRange::new(Bound::Excluded(raw(8388607)), Bound::Unbounded);
    let d = AnyRange::new(Bound::Included(raw(8388600)), Bound::Unbounded);
    let e = AnyRange::new(Bound::Included(raw(7)), Bound::Included(raw(3)));
    let f = AnyRange::new(Bound::Excluded(raw(4)), Bound::Excluded(raw(4)));
    [a.len(), b.len(), c.len(), d.len(), e.len(), f.len()]
}

// (4, 6) holds 5, and (4, 5) neither 4 nor 5.
pub fn held() -> [bool; 3]
    ensures { result ≡ true ∷ false ∷ false ∷ [] }
{
    let a = AnyRange::new(Bound::Excluded(raw(4)), Bound::Excluded(raw(6)));
    let b = AnyRange::new(Bound::Excluded(raw(4)), Bound::Excluded(raw(5)));
    [
        a.contains(&raw(5)),
        b.contains(&raw(4)),
        b.contains(&raw(5)),
    ]
}

// 0..5 and 0..=4 touch 5..10; 0..5 and 6..10 are apart.
pub fn pairs() -> [Option<RangeOrdering>; 3]
    ensures { result ≡ Some (Before true) ∷ Some (Before true) ∷ Some (Before false) ∷ [] }
{
    let a = AnyRange::new(Bound::Included(raw(0)), Bound::Excluded(raw(5)));
    let b = AnyRange::new(Bound::Included(raw(0)), Bound::Included(raw(4)));
    let c = AnyRange::new(Bound::Included(raw(5)), Bound::Excluded(raw(10)));
    let d = AnyRange::new(Bound::Included(raw(6)), Bound::Excluded(raw(10)));
    [
        a.range_partial_cmp(&c),
        b.range_partial_cmp(&c),
        a.range_partial_cmp(&d),
    ]
}
