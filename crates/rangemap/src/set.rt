// A set of keys, by ranges: the map with the value that says nothing.
use super::map::RangeMap;
use lawful::Nothing;

pub type RangeSet<K> = RangeMap<K, Nothing>;
