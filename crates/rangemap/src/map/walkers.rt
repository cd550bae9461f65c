// Walkers over the stored ranges and over the gaps between them.
ghost use Rattle.std.specs.Prelude.{◌≡◌, ◌≤◌, map as each, take, length, IfOk};
ghost use Rattle.std.specs.Option.{option_map};
ghost use Rattle.ledger.specs.Ledger.{list, nothing};
ghost use Rattle.ledger.specs.Spans.{gaps as gaps_of};
ghost use Rattle.ranges.specs.Places.{low};
ghost use Rattle.rangemap.specs.Maps.{Does, Ready, RisesIn, stored};
ghost use Rattle.rangemap.specs.Search.{Splits};
ghost use Rattle.rangemap.specs.Walks.{First, Walks, end, end_of, gap_end, gap_of, past};

use super::super::cursor::Cursor;
use super::super::ends::{end_before, end_place, start_behind};
use super::super::held_range::HeldRange;
use super::super::item::Item;
use super::RangeMap;
use lawful::{Key, Value};
use ranges::AnyRange;
use std::alloc::{AllocError, Global};
use std::ops::Bound;

// Hands out the stored ranges.
#[derive(Clone, Copy)]
pub struct Ranges {
    at: Cursor,
}

impl<K: Key, V: Value> RangeMap<K, V> {
    // A walker over the stored ranges, before the first.
    pub fn iter(&self) -> Ranges
        ensures place { result.at.place ≡ 0 }
        ensures left { result.at.left ≡ K.COUNT }
        ensures does { Does K.Key.own V.equals self.now.store list nothing self.now.store }
    {
        Ranges {
            at: Cursor::new::<K>(),
        }
    }

    // The index of the first stored range that ends past the place.
    fn first_past(&self, place: u64) -> usize
        ensures within { result ≤ length self.now.store.items.items }
        ensures splits { RisesIn K.Key.own self.now.store → Splits place (stored K.Key.own self.now.store) result }
    {
        let Some(key) = K::at(place) else {
            return self.store.items.len();
        };
        match self.address_of(&HeldRange::single(key), false) {
            Ok(addr) | Err(addr) => addr,
        }
    }
}

impl Ranges {
    // The first stored range that ends past the walker's place, which moves to its end.
    pub fn next<K: Key, V: Value>(&mut self, map: &RangeMap<K, V>) -> Option<Item<K, V>>
        ensures { Walks (end K.Key.own) (Ready K.Key.own map.now.store) map.now.store.items.items self.old.at.place self.old.at.left result self.new.at.place self.new.at.left }
    {
        let item = *map
            .store
            .items
            .as_slice()
            .get(map.first_past(self.at.place))?;
        self.at.move_to(item.past())?;
        Some(item)
    }
}

// All that a walker over the stored ranges hands out.
pub fn all_ranges<K: Key, V: Value>(
    heap: Global,
    map: &RangeMap<K, V>,
) -> Result<Vec<Item<K, V>>, AllocError>
    ensures { IfOk result (λ v. RisesIn K.Key.own map.now.store → v.items ≡ map.now.store.items.items) }
{
    let mut out = Vec::with_capacity(heap, map.store.items.len())?;
    let mut walker = map.iter();
    while let Some(item) = walker.next(map) {
        out.push(item)?;
    }
    Ok(out)
}

// Hands out the gaps.
#[derive(Clone, Copy)]
pub struct Gaps {
    at: Cursor,
}

impl<K: Key, V: Value> RangeMap<K, V> {
    // A walker over the gaps, before the first.
    pub fn gaps(&self) -> Gaps
        ensures place { result.at.place ≡ 0 }
        ensures left { result.at.left ≡ K.COUNT }
        ensures does { Does K.Key.own V.equals self.now.store list nothing self.now.store }
    {
        Gaps {
            at: Cursor::new::<K>(),
        }
    }

    // The start right behind the stored range before the index.
    fn start_at(&self, i: usize) -> Bound<K>
        requires { i ≤ length self.now.store.items.items }
        ensures { low K.Key.own result ≡ end_of 0 (take i (stored K.Key.own self.now.store)) }
    {
        if i == 0 {
            Bound::Unbounded
        } else {
            start_behind(self.store.items.get_at(i - 1).key.end)
        }
    }

    // The first gap that ends past the place.
    fn gap_past(&self, place: u64) -> Option<AnyRange<K>>
        ensures { RisesIn K.Key.own self.now.store → First (past gap_end place (gaps_of K.COUNT (stored K.Key.own self.now.store))) (option_map (gap_of K.Key.own) result) }
    {
        let first = self.first_past(place);
        let mut start = self.start_at(first);
        for item in &self.store.items.as_slice()[first..] {
            let end = end_before(item.key.start);
            let gap = AnyRange { start, end };
            if !gap.is_empty() && place < end_place(end) {
                return Some(gap);
            }
            start = start_behind(item.key.end);
        }
        let gap = AnyRange {
            start,
            end: Bound::Unbounded,
        };
        if !gap.is_empty() && place < K::COUNT {
            Some(gap)
        } else {
            None
        }
    }
}

impl Gaps {
    // The first gap that ends past the walker's place, which moves to its end.
    pub fn next<K: Key, V: Value>(&mut self, map: &RangeMap<K, V>) -> Option<AnyRange<K>>
        ensures { Walks gap_end (Ready K.Key.own map.now.store) (gaps_of K.COUNT (stored K.Key.own map.now.store)) self.old.at.place self.old.at.left (option_map (gap_of K.Key.own) result) self.new.at.place self.new.at.left }
    {
        let gap = map.gap_past(self.at.place)?;
        self.at.move_to(end_place(gap.end))?;
        Some(gap)
    }
}

// All that a walker over the gaps hands out. The loop is that of `all_ranges`: one for both would take a trait whose ghost members tell the two lists apart, and be longer.
pub fn all_gaps<K: Key, V: Value>(
    heap: Global,
    map: &RangeMap<K, V>,
) -> Result<Vec<AnyRange<K>>, AllocError>
    ensures { IfOk result (λ v. RisesIn K.Key.own map.now.store → each (gap_of K.Key.own) v.items ≡ gaps_of K.COUNT (stored K.Key.own map.now.store)) }
{
    let mut out = Vec::with_capacity(heap, map.store.items.len())?;
    let mut walker = map.gaps();
    while let Some(gap) = walker.next(map) {
        out.push(gap)?;
    }
    Ok(out)
}
