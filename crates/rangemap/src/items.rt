// The list of stored items, in memory that was set aside for so many: a Vec, since a map of the library would ask for
// memory at each insert. The calls by address keep the Rust's names. (That an address lies in the list, and that there is
// room, are facts of two values that a call brings together, and stand in its clauses.)
ghost use Rattle.std.specs.Prelude.{◌≡◌, ◌+◌, ◌<◌, ◌≤◌, [], length, set, slice_index_or, IfOk, MatchOption};
ghost use Rattle.std.specs.List.{insert, remove};
ghost use Rattle.rangemap.specs.Contents.{HasRoom};
ghost use Rattle.rangemap.specs.Spots.{address, next};

use super::item::Item;
use super::spot::Spot;
use lawful::{Key, Value};
use std::alloc::{AllocError, Global};
use std::marker::Model;

#[derive(Drop)]
pub(crate) struct Items<K, V> {
    list: Vec<Item<K, V>>,
}

impl<K, V> Model for Items<K, V> {
    ghost use Rattle.std.specs.Prelude.{vec_capacity};
    ghost use Rattle.std.specs.Vec.{vec_ptr};
    ghost use Rattle.rangemap.specs.Contents.{Contents};

    ghost Value = { Contents K V };

    ghost view = { λ a. record { items = a.list.items; room = vec_capacity a.list; block = vec_ptr a.list } };
}

impl<K: Key, V: Value> Items<K, V> {
    // No items, and memory for so many; or the error that there is none.
    pub(crate) fn with_room(heap: Global, room: usize) -> Result<Items<K, V>, AllocError>
        ensures { IfOk result (λ made. (made.items ≡ []) × (room ≤ made.room)) }
    {
        let list = Vec::with_capacity(heap, room)?;
        Ok(Items { list })
    }

    pub(crate) fn len(&self) -> usize
        ensures { result ≡ length self.now.items }
    {
        self.list.len()
    }

    pub(crate) fn as_slice(&self) -> &[Item<K, V>]
        ensures { result.now ≡ self.now.items }
    {
        self.list.as_slice()
    }

    pub(crate) fn clear(&mut self)
        ensures items { self.new.items ≡ [] }
        ensures room { self.new.room ≡ self.old.room }
    {
        self.list.clear();
    }

    // Makes it a copy of the other, in the memory that it has.
    pub(crate) fn copy_from(&mut self, other: &Items<K, V>)
        requires { length other.now.items ≤ self.old.room }
        ensures items { self.new.items ≡ other.now.items }
        ensures room { self.old.room ≤ self.new.room }
    {
        self.list.clear();
        self.list.extend_from_slice(&other.list).unwrap();
    }

    // The item at the address.
    pub(crate) fn get_at(&self, addr: usize) -> Item<K, V>
        requires { addr < length self.now.items }
        ensures { result ≡ slice_index_or self.now.items addr result }
    {
        self.list[addr]
    }

    // Puts an item in the place of the one at the address.
    pub(crate) fn set_at(&mut self, addr: usize, item: Item<K, V>)
        requires { addr < length self.old.items }
        ensures { self.new ≡ record self.old { items = set self.old.items addr item } }
    {
        self.list[addr] = item;
    }

    // Puts an item before the one at the address; there is memory for it.
    pub(crate) fn insert_at(&mut self, addr: usize, item: Item<K, V>)
        requires within { addr ≤ length self.old.items }
        requires room { HasRoom 1 self.old }
        ensures { self.new ≡ record self.old { items = insert self.old.items addr item } }
    {
        self.list.insert(addr, item).unwrap();
    }

    // Takes the item at the address away. The address stays, and is none once nothing is left.
    pub(crate) fn remove_at(&mut self, addr: usize) -> Option<usize>
        requires { addr < length self.old.items }
        ensures items { self.new ≡ record self.old { items = remove self.old.items addr } }
        ensures at { MatchOption result (length self.new.items ≡ 0) (λ i. (i ≡ addr) × (0 < length self.new.items)) }
    {
        let _ = self.list.remove(addr);
        (!self.list.is_empty()).then_some(addr)
    }

    // The address, or none past the last item.
    pub(crate) fn normalize(&self, addr: usize) -> Option<usize>
        ensures { MatchOption result (length self.now.items ≤ addr) (λ i. (i ≡ addr) × (addr < length self.now.items)) }
    {
        (addr < self.list.len()).then_some(addr)
    }

    // The address after this one, if an item stands there.
    pub(crate) fn next_item_address(&self, addr: usize) -> Option<usize>
        requires { addr < length self.now.items }
        ensures { MatchOption result (length self.now.items ≤ addr + 1) (λ i. (i ≡ addr + 1) × (addr + 1 < length self.now.items)) }
    {
        // not by `normalize`: it is the length that says that the sum fits
        (self.len() > addr + 1).then_some(addr + 1)
    }

    // The address at which what follows begins, or none past the last item.
    pub(crate) fn following_address(&self, at: Spot) -> Option<usize>
        requires { address at < length self.now.items }
        ensures { MatchOption result (length self.now.items ≤ next at) (λ i. (i ≡ next at) × (next at < length self.now.items)) }
    {
        match at {
            Spot::Kept(addr) => self.normalize(addr),
            Spot::Spent(addr) => self.next_item_address(addr),
        }
    }

    // The address before this one, if there is one.
    pub(crate) fn previous_item_address(&self, addr: usize) -> Option<usize>
        ensures { MatchOption result (addr ≡ 0) (λ i. (i + 1 ≡ addr)) }
    {
        addr.checked_sub(1)
    }
}
