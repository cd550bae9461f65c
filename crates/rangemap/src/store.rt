// What a map stores, in memory that was set aside for so many slots.
ghost use Rattle.std.specs.Prelude.{◌≡◌, ◌+◌, ◌*◌, ◌≤◌, IfOk, length};

use super::decline::Decline;
use super::items::Items;
use lawful::{Key, Value};
use std::alloc::{AllocError, Global};
use std::mem::swap;

// A list can be longer on the way than before and after, by one range for each slot and two more.
#[derive(Drop)]
pub(crate) struct Store<K, V> {
    // the stored ranges
    pub(crate) items: Items<K, V>,
    // where a change is walked before it is accepted
    pub(crate) work: Items<K, V>,
    // the most ranges that may be stored
    pub(crate) slots: usize,
    ghost few: { length items.items ≤ slots },
    ghost roomy: { 2 * slots + 2 ≤ items.room },
    ghost spare: { 2 * slots + 2 ≤ work.room },
}

impl<K: Key, V: Value> Store<K, V> {
    ghost use Rattle.rangemap.specs.Maps.{Copied, Settled};

    // Nothing stored, and all the memory that so many slots will need, or the error that there is none.
    pub(crate) fn new(heap: Global, slots: usize) -> Result<Store<K, V>, AllocError>
        ensures { IfOk result (λ s. (length s.items.items ≡ 0) × (s.slots ≡ slots)) }
    {
        if slots > usize::MAX / 4 {
            return Err(AllocError);
        }
        let items = Items::with_room(heap, 2 * slots + 2)?;
        let work = Items::with_room(heap, 2 * slots + 2)?;
        Ok(Store { items, work, slots })
    }

    // Makes the work list a copy of the items, in the memory that it has; a clone would ask for more.
    pub(crate) fn copy(&mut self)
        ensures { Copied self.old self.new }
    {
        self.work.copy_from(&self.items);
    }

    // Takes the work list for the items, unless it is longer than the slots.
    pub(crate) fn settle(&mut self) -> Result<usize, Decline>
        ensures { Settled self.old result self.new }
    {
        if self.work.len() > self.slots {
            return Err(Decline::Full);
        }
        swap(&mut self.items, &mut self.work);
        Ok(self.items.len())
    }
}
