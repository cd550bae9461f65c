// Making a map.
ghost use Rattle.std.specs.Prelude.{◌≡◌, [], IfOk, IfErr};
ghost use Rattle.rangemap.specs.Making.{Made};
ghost use Rattle.rangemap.specs.Maps.{stored};

use super::super::decline::MakeDecline;
use super::super::slots::Slots;
use super::RangeMap;
use lawful::{Key, Value};
use std::alloc::{AllocError, Global};
use std::mem::replace;

// the most slots that a map can have
const SLOT_LIMIT: usize = 4096;

impl<K: Key, V: Value> RangeMap<K, V> {
    // A map without slots: it stores nothing, and has room for nothing.
    pub fn without_slots(heap: Global) -> Result<RangeMap<K, V>, AllocError>
        ensures { IfOk result (λ m. (stored K.Key.own m.store ≡ []) × (m.store.slots ≡ 0)) }
    {
        let Slots { store } = Slots::new(heap, 0)?;
        Ok(RangeMap { store })
    }

    // Makes this a new map over the slots, and answers those that it had. Declined, the slots come back and the map stays.
    pub fn make(&mut self, slots: Slots<K, V>) -> Result<Slots<K, V>, (MakeDecline, Slots<K, V>)>
        ensures made { Made K.Key.own self.old.store slots result self.new.store }
        ensures untouched { IfErr result (λ _. self.new ≡ self.old) }
    {
        if slots.store.slots > SLOT_LIMIT {
            return Err((MakeDecline::SlotLimit, slots));
        }
        let mut store = replace(&mut self.store, slots.store);
        store.items.clear();
        Ok(Slots { store })
    }
}
