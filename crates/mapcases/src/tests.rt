// Each test lists a map's ranges, or its gaps, by first and last key after some changes.
use crate::label::Label;
use crate::labels::Labels;
use kinds::RawCount;
use rangemap::{Decline, RangeMap, Slots, all_gaps, all_ranges};
use ranges::AnyRange;
use std::alloc::Global;
use std::ops::Bound;
use std::test::Fail;

const A: Label = Label { number: 1 };

const B: Label = Label { number: 2 };

// a..b
fn range(a: i32, b: i32) -> Result<AnyRange<RawCount>, Fail> {
    Ok(AnyRange::new(
        Bound::Included(RawCount::try_from(a)?),
        Bound::Excluded(RawCount::try_from(b)?),
    ))
}

fn map(heap: Global, slots: usize) -> Result<RangeMap<RawCount, Label>, Fail> {
    let mut map = RangeMap::without_slots(heap)?;
    map.make(Slots::new(heap, slots)?)
        .map_err(|_| Fail::new("more slots than a map can have"))?;
    Ok(map)
}

// What a change answered: how many ranges are stored, or the decline's number with 1,000 added.
fn answer(res: Result<usize, Decline>) -> usize {
    res.unwrap_or_else(|why| 1000 + usize::from(u8::from(why)))
}

// The same of insert_disconnected, which hands range and value back.
fn placed(res: Result<usize, (Decline, (AnyRange<RawCount>, Label))>) -> usize {
    answer(res.map_err(|back| back.0))
}

// A key's raw count; no raw count where there is no key.
fn value(key: Option<RawCount>) -> i32 {
    key.map_or(i32::MIN, |count| count.value())
}

// Whether the map stores exactly these: first key, last key and label.
fn stores(
    heap: Global,
    map: &RangeMap<RawCount, Label>,
    expected: &[(i32, i32, u16)],
) -> Result<bool, Fail> {
    let items = all_ranges(heap, map)?;
    let same = items.iter().zip(expected).all(|(item, (first, last, label))| {
        value(item.key.first()) == *first
            && value(item.key.last()) == *last
            && item.value.number == *label
    });
    Ok(same && items.len() == expected.len())
}

// In 0..10 A, insert 3..5 B gives 0..3 A, 3..5 B, 5..10 A; with two slots it is declined, and nothing changes.
#[test]
fn insert_splits(rt: HostRuntime) -> Result<(), Fail> {
    let heap = rt.alloc();
    let mut three = map(heap, 3)?;
    assert!(rt; answer(three.insert(range(0, 10)?, A)) == 1);
    assert!(rt; answer(three.insert(range(3, 5)?, B)) == 3);
    assert!(rt; stores(heap, &three, &[(0, 2, 1), (3, 4, 2), (5, 9, 1)])?);
    let mut two = map(heap, 2)?;
    assert!(rt; answer(two.insert(range(0, 10)?, A)) == 1);
    assert!(rt; answer(two.insert(range(3, 5)?, B)) == 1011);
    assert!(rt; stores(heap, &two, &[(0, 9, 1)])?);
    Ok(())
}

// In 0..5 A, 10..15 B, insert 3..10 B gives 0..3 A, 3..15 B. In 0..5 A, 10..15 A, insert 5..10 A gives 0..15 A.
#[test]
fn insert_joins(rt: HostRuntime) -> Result<(), Fail> {
    let heap = rt.alloc();
    let mut after = map(heap, 8)?;
    assert!(rt; answer(after.insert(range(0, 5)?, A)) == 1);
    assert!(rt; answer(after.insert(range(10, 15)?, B)) == 2);
    assert!(rt; answer(after.insert(range(3, 10)?, B)) == 2);
    assert!(rt; stores(heap, &after, &[(0, 2, 1), (3, 14, 2)])?);
    let mut both = map(heap, 8)?;
    assert!(rt; answer(both.insert(range(0, 5)?, A)) == 1);
    assert!(rt; answer(both.insert(range(10, 15)?, A)) == 2);
    assert!(rt; answer(both.insert(range(5, 10)?, A)) == 1);
    assert!(rt; stores(heap, &both, &[(0, 14, 1)])?);
    Ok(())
}

// In 0..10 A, remove 5..5 or 7..3 does nothing; remove 3..5 splits, unless there is no slot for it.
#[test]
fn remove_cuts(rt: HostRuntime) -> Result<(), Fail> {
    let heap = rt.alloc();
    let mut two = map(heap, 2)?;
    assert!(rt; answer(two.insert(range(0, 10)?, A)) == 1);
    assert!(rt; answer(two.remove(range(5, 5)?)) == 1);
    assert!(rt; answer(two.remove(range(7, 3)?)) == 1);
    assert!(rt; answer(two.remove(range(3, 5)?)) == 2);
    assert!(rt; answer(two.remove(range(7, 8)?)) == 1011);
    assert!(rt; stores(heap, &two, &[(0, 2, 1), (5, 9, 1)])?);
    Ok(())
}

// Beside 0..5 A, insert_disconnected 5..8 A is declined 10, and 6..8 A is accepted; over no key it is declined 9.
#[test]
fn disconnected(rt: HostRuntime) -> Result<(), Fail> {
    let heap = rt.alloc();
    let mut two = map(heap, 2)?;
    assert!(rt; answer(two.insert(range(0, 5)?, A)) == 1);
    assert!(rt; placed(two.insert_disconnected(range(5, 8)?, A)) == 1010);
    assert!(rt; placed(two.insert_disconnected(range(7, 3)?, A)) == 1009);
    assert!(rt; placed(two.insert_disconnected(range(6, 8)?, A)) == 2);
    assert!(rt; placed(two.insert_disconnected(range(9, 10)?, A)) == 1011);
    assert!(rt; stores(heap, &two, &[(0, 4, 1), (6, 7, 1)])?);
    Ok(())
}

// 0..5 A with 5.. B has the one gap ..0.
#[test]
fn one_gap(rt: HostRuntime) -> Result<(), Fail> {
    let heap = rt.alloc();
    let mut map = map(heap, 8)?;
    assert!(rt; answer(map.insert(range(0, 5)?, A)) == 1);
    let rest = AnyRange::new(Bound::Included(RawCount::try_from(5)?), Bound::Unbounded);
    assert!(rt; answer(map.insert(rest, B)) == 2);
    let gaps = all_gaps(heap, &map)?;
    assert!(rt; gaps.len() == 1);
    assert_eq!(rt; value(gaps[0].first()), -8388608);
    assert_eq!(rt; value(gaps[0].last()), -1);
    Ok(())
}

// get and intersects; a map of 4,097 slots is not made, and the slots come back.
#[test]
fn reads(rt: HostRuntime) -> Result<(), Fail> {
    let heap = rt.alloc();
    let mut map = map(heap, 8)?;
    assert!(rt; answer(map.insert(range(0, 5)?, A)) == 1);
    assert_eq!(rt; map.get(RawCount::try_from(4)?).ok_or("none")?.number, 1);
    assert!(rt; map.get(RawCount::try_from(5)?).is_none());
    assert!(rt; map.intersects(range(4, 9)?));
    assert!(rt; !map.intersects(range(5, 9)?));
    assert!(rt; !map.intersects(range(3, 3)?));
    match map.make(Slots::new(heap, 4097)?) {
        Ok(_) => Err(Fail::new("too many slots")),
        Err(declined) => {
            assert!(rt; u8::from(declined.0) == 1 && declined.1.count() == 4097);
            Ok(())
        },
    }
}

// Three slots, and the raw counts 0 to 9 under A: 5 has A, 10 none, and over 4,097 slots nothing is made.
#[test]
fn labels_of_raw_counts(rt: HostRuntime) -> Result<(), Fail> {
    let heap = rt.alloc();
    let mut labels = Labels::without_slots(heap)?;
    assert!(rt; answer(labels.insert(range(0, 10)?, A)) == 1011);
    assert!(rt; labels.make(Slots::new(heap, 3)?).is_ok());
    assert!(rt; answer(labels.insert(range(0, 10)?, A)) == 1);
    assert!(rt;
        labels
            .get(RawCount::try_from(5)?)
            .is_some_and(|label| label == A)
    );
    assert!(rt; labels.get(RawCount::try_from(10)?).is_none());
    assert!(rt; labels.make(Slots::new(heap, 4_097)?).is_err());
    assert!(rt; labels.get(RawCount::try_from(5)?).is_some());
    Ok(())
}
