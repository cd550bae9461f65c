// The calls that change the map. Range and value are given one by one, as in the Rust; `Keeps` is one word for what each of
// three calls promises where it is declined.
ghost use Rattle.std.specs.Prelude.{◌≡◌, IfErr};
ghost use Rattle.ledger.specs.Ledger.{insert as inserting, insert_disconnected as storing, remove as removing, update as updating};
ghost use Rattle.ranges.specs.Parts.{span as ends};
ghost use Rattle.rangemap.specs.Declines.{answer, answer_or};
ghost use Rattle.rangemap.specs.Maps.{Does, Keeps, Placed, RisesIn};
ghost use Rattle.rangemap.specs.Ranges.{lo, hi};

use super::super::decline::Decline;
use super::super::held_range::HeldRange;
use super::super::item::Item;
use super::RangeMap;
use lawful::{Change, Key, Value};
use ranges::AnyRange;

impl<K: Key, V: Value> RangeMap<K, V> {
    // Puts the value at the places of the range, and answers the number of ranges then stored.
    pub fn insert(&mut self, range: AnyRange<K>, value: V) -> Result<usize, Decline>
        ensures does { Does K.Key.own V.equals self.old.store (inserting (lo K.Key.own range) (hi K.Key.own range) value) (answer result) self.new.store }
        ensures keeps { Keeps self.old.store result self.new.store }
    {
        let store = &mut self.store;
        if store.items.len() + 2 <= store.slots {
            store.items.insert(range, value);
            return Ok(store.items.len());
        }
        store.copy();
        store.work.insert(range, value);
        store.settle()
    }

    // Puts at each place of the range what the change makes of what is there, and answers the number of ranges then stored. Not public before the promise over lists of calls stands.
    pub(crate) fn update<C: Change<V>>(
        &mut self,
        range: AnyRange<K>,
        change: &C,
    ) -> Result<usize, Decline>
        ensures does { Does K.Key.own V.equals self.old.store (updating (lo K.Key.own range) (hi K.Key.own range) (C.makes change.now)) (answer result) self.new.store }
        ensures keeps { Keeps self.old.store result self.new.store }
    {
        let store = &mut self.store;
        store.copy();
        store.work.update(range, change);
        store.settle()
    }

    // Takes the places of the key out of the map, and answers the number of ranges then stored.
    #[tactic(auto, using(crate::proofs::Edits::remove_bare, crate::proofs::Edits::remove_keeps))]
    pub fn remove(&mut self, key: AnyRange<K>) -> Result<usize, Decline>
        ensures does { Does K.Key.own V.equals self.old.store (removing (ends K.Key.own key).low (ends K.Key.own key).high) (answer result) self.new.store }
        ensures keeps { RisesIn K.Key.own self.old.store → Keeps self.old.store result self.new.store }
    {
        let Some(held) = HeldRange::new(key) else {
            return Ok(self.store.items.len());
        };
        let Ok(from) = self.address_of(&held, false) else {
            return Ok(self.store.items.len());
        };
        let slots = self.store.slots;
        self.store.items.cut_back(slots, from, &held)?;
        Ok(self.store.items.len())
    }

    // Stores a range that neither shares a place with a stored one nor touches it, and answers the number of ranges then stored. Declined, the range and the value come back.
    pub fn insert_disconnected(
        &mut self,
        key: AnyRange<K>,
        value: V,
    ) -> Result<usize, (Decline, (AnyRange<K>, V))>
        ensures does { Does K.Key.own V.equals self.old.store (storing (ends K.Key.own key).low (ends K.Key.own key).high value) (answer_or result) self.new.store }
        ensures stored { Placed self.old.store key value result self.new.store }
        ensures untouched { IfErr result (λ _. self.new ≡ self.old) }
    {
        let Some(held) = HeldRange::new(key) else {
            return Err((Decline::EmptyRange, (key, value)));
        };
        match self.address_of(&held, true) {
            Ok(_) => Err((Decline::Connected, (key, value))),
            Err(addr) => {
                if self.store.items.len() >= self.store.slots {
                    return Err((Decline::Full, (key, value)));
                }
                let store = &mut self.store;
                store.items.insert_at(addr, Item { key, value });
                Ok(store.items.len())
            }
        }
    }
}
