// The calls that only read.
ghost use Rattle.std.specs.Prelude.{◌≡◌, length};
ghost use Rattle.ledger.specs.Ledger.{get as getting, intersects as intersecting, found, said};
ghost use Rattle.ledger.specs.Spans.{held};
ghost use Rattle.ranges.specs.Parts.{span as ends};
ghost use Rattle.rangemap.specs.Search.{Index, Rising, Searched};
ghost use Rattle.rangemap.specs.Maps.{Does, RisesIn, stored};

use super::super::held_range::HeldRange;
use super::super::search::address;
use super::RangeMap;
use lawful::{Key, Value};
use ranges::AnyRange;

impl<K: Key, V: Value> RangeMap<K, V> {
    // The last stored range that shares a place with the key; if connected, else the last that touches it; else the place where the key would stand. (The flag is the Rust's.)
    pub(super) fn address_of(&self, key: &HeldRange<K>, connected: bool) -> Result<usize, usize>
        ensures within { Index (length self.now.store.items.items) result }
        ensures found { Rising (stored K.Key.own self.now.store) → Searched connected (ends K.Key.own key.now.range).low (ends K.Key.own key.now.range).high (stored K.Key.own self.now.store) result }
    {
        address(self.store.items.as_slice(), key, connected)
    }

    // The value at a key, or none.
    #[tactic(auto, using(crate::proofs::Looks::get_absent, crate::proofs::Looks::get_value, crate::proofs::Looks::get_none))]
    pub fn get(&self, key: K) -> Option<V>
        ensures value { RisesIn K.Key.own self.now.store → result ≡ held (stored K.Key.own self.now.store) (K.place key) }
        ensures does { Does K.Key.own V.equals self.now.store (getting (K.place key)) (found result) self.now.store }
    {
        match self.address_of(&HeldRange::single(key), false) {
            Ok(addr) => Some(self.store.items.get_at(addr).value),
            Err(_) => None,
        }
    }

    // Whether a place of the range has a value.
    #[tactic(auto, using(crate::proofs::Looks::intersects_found, crate::proofs::Looks::intersects_none))]
    pub fn intersects(&self, key: AnyRange<K>) -> bool
        ensures { Does K.Key.own V.equals self.now.store (intersecting (ends K.Key.own key).low (ends K.Key.own key).high) (said result) self.now.store }
    {
        let Some(key) = HeldRange::new(key) else {
            return false;
        };
        self.address_of(&key, false).is_ok()
    }
}
