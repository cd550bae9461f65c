// The backward walk of `remove`.
ghost use Rattle.std.specs.Prelude.{◌≡◌, ◌+◌, ◌<◌, ◌≤◌, length};
ghost use Rattle.ranges.specs.Parts.{span as ends};
ghost use Rattle.rangemap.specs.Cuts.{Taken, Turned};
ghost use Rattle.rangemap.specs.Items.{listed};
ghost use Rattle.rangemap.specs.Search.{Last, Rising};

use super::decline::Decline;
use super::held_range::HeldRange;
use super::item::Item;
use super::items::Items;
use super::search::matches;
use lawful::{Key, Value};
use ranges::Difference;
use std::ops::ControlFlow;

impl<K: Key, V: Value> Items<K, V> {
    // The item at addr gives way to the key. Break, where none before it has to.
    fn cut_item(
        &mut self,
        slots: usize,
        addr: usize,
        key: &HeldRange<K>,
    ) -> Result<ControlFlow<()>, Decline>
        requires within { addr < length self.old.items }
        requires few { length self.old.items ≤ slots }
        requires room { slots < self.old.room }
        ensures turned { Turned K.Key.own (ends K.Key.own key.now.range).low (ends K.Key.own key.now.range).high slots self.old.items addr self.new.items result }
        ensures few { length self.new.items ≤ slots }
        ensures long { length self.old.items ≤ length self.new.items + 1 }
        ensures room { self.new.room ≡ self.old.room }
    {
        let item = self.get_at(addr);
        let value = item.value;
        match item.key.without(&key.range) {
            Difference::Before(key) => {
                self.set_at(addr, Item { key, value });
                Ok(ControlFlow::Break(()))
            }
            Difference::After(key) => {
                self.set_at(addr, Item { key, value });
                Ok(ControlFlow::Continue(()))
            }
            Difference::Split(left, right) => {
                if self.len() >= slots {
                    return Err(Decline::Full);
                }
                self.set_at(addr, Item { key: right, value });
                self.insert_at(addr, Item { key: left, value });
                Ok(ControlFlow::Break(()))
            }
            Difference::Empty => {
                let _ = self.remove_at(addr);
                Ok(ControlFlow::Continue(()))
            }
        }
    }

    // From the item at `from` back, each item that shares a place with the key gives way to it. Declined, if there is no slot for the result.
    pub(crate) fn cut_back(
        &mut self,
        slots: usize,
        from: usize,
        key: &HeldRange<K>,
    ) -> Result<(), Decline>
        requires within { from < length self.old.items }
        requires few { length self.old.items ≤ slots }
        requires room { slots < self.old.room }
        requires found { Rising (listed K.Key.own self.old) → Last 0 (ends K.Key.own key.now.range).low (ends K.Key.own key.now.range).high (listed K.Key.own self.old) from }
        ensures taken { Taken K.Key.own (ends K.Key.own key.now.range).low (ends K.Key.own key.now.range).high slots self.old.items self.new.items result }
        ensures few { length self.new.items ≤ slots }
        ensures room { self.new.room ≡ self.old.room }
    {
        for addr in (0..=from).rev() {
            if !matches(&self.get_at(addr).key, &key.range, false) {
                break;
            }
            if let ControlFlow::Break(()) = self.cut_item(slots, addr, key)? {
                break;
            }
        }
        Ok(())
    }
}
