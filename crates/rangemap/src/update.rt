// The backward walk of `update`.
ghost use Rattle.std.specs.Prelude.{◌≡◌, ◌+◌, ◌-◌, ◌*◌, ◌<◌, ◌≤◌, ◌++◌, length, take, drop, slice_index_or};
ghost use Rattle.rangemap.specs.Contents.{Grows, HasRoom};
ghost use Rattle.rangemap.specs.Items.{Found, Reworks, listed, span_at, tail_after, tail_made};
ghost use Rattle.rangemap.specs.Spans.{put};
ghost use Rattle.rangemap.specs.Spots.{Steps, address, next};

use super::held_range::HeldRange;
use super::item::Item;
use super::items::Items;
use super::spot::Spot;
use lawful::{Change, Key, Value};
use ranges::{AnyRange, Product, ProductArg};

impl<K: Key, V: Value> Items<K, V> {
    // Both parts of a turn from the key's start on, or the item's: the one after, and the shared one.
    fn settle(
        &mut self,
        addr: usize,
        value: V,
        product: Product<K>,
        blank: Option<V>,
        made: Option<V>,
    ) -> Spot
        requires within { addr < length self.old.items }
        requires room { HasRoom 1 self.old }
        ensures { Steps K.Key.own 1 (Spot.Spent addr) self.old result self.new (tail_made K.Key.own V.equals made product.intersection (tail_after K.Key.own V.equals value blank product.after (drop (addr + 1) (listed K.Key.own self.old)))) }
    {
        let at = self.settle_after(addr, value, product.after, blank);
        self.put_made(at, product.intersection, made)
    }

    // The walk ends where the key starts with the item: the item before is joined to what follows now.
    fn end_level(&mut self, at: Spot)
        requires within { address at < length self.old.items }
        requires room { HasRoom 1 self.old }
        ensures first { address at ≡ 0 → listed K.Key.own self.new ≡ take (address at) (listed K.Key.own self.old) ++ drop (next at) (listed K.Key.own self.old) }
        ensures later { (x : Item K V) → 0 < address at → x ≡ slice_index_or self.old.items (address at - 1) x → listed K.Key.own self.new ≡ take (address at - 1) (listed K.Key.own self.old) ++ put V.equals (span_at K.Key.own x) (drop (next at) (listed K.Key.own self.old)) }
        ensures grows { Grows 0 self.old self.new }
    {
        let Some(prev) = self.previous_item_address(at.address()) else {
            self.drop_item(at);
            return;
        };
        let item = self.get_at(prev);
        self.drop_item(at);
        self.put_item(Spot::Spent(prev), item);
    }

    // From the found item back, each part of the key gets what the change makes of what is there.
    fn change_walk<C: Change<V>>(&mut self, from: usize, range: &HeldRange<K>, change: &C)
        requires within { from < length self.old.items }
        requires room { HasRoom (length self.old.items + 1) self.old }
        ensures changed { Found K.Key.own range.now.range self.old.items from → Reworks K.Key.own V.equals range.now.range (C.makes change.now) self.old self.new }
        ensures grows { Grows (length self.old.items + 1) self.old self.new }
    {
        let blank = change.apply(None);
        let mut key = range.range;
        // a walk leaves by `break`, and the address that it goes on at is the one that the list hands out
        let mut addr = from;
        'back: loop {
            let item = self.get_at(addr);
            let made = change.apply(Some(item.value));
            let product = key.product(&item.key);
            let at = self.settle(addr, item.value, product, blank, made);
            // one match, as no proof closed with `if let` and `let else` here, nor with a field matched
            let before = product.before;
            match before {
                Some(ProductArg::Object(part)) => {
                    self.put_item(
                        at,
                        Item {
                            key: part,
                            value: item.value,
                        },
                    );
                    break;
                }
                None => {
                    self.end_level(at);
                    break;
                }
                Some(ProductArg::Subject(part)) => {
                    let Some(prev) = self.connected_before(at, part) else {
                        let at = self.put_made(at, Some(part), blank);
                        self.drop_item(at);
                        break;
                    };
                    self.drop_item(at);
                    key = part;
                    addr = prev;
                }
            }
        }
    }

    // Puts at each place of the range what the change makes of what is there.
    pub(crate) fn update<C: Change<V>>(&mut self, range: AnyRange<K>, change: &C)
        requires { HasRoom (length self.old.items + 1) self.old }
        ensures changed { Reworks K.Key.own V.equals range (C.makes change.now) self.old self.new }
        ensures grows { Grows (length self.old.items + 1) self.old self.new }
    {
        let Some(held) = HeldRange::new(range) else {
            return;
        };
        match self.address_of(&held) {
            Ok(addr) => self.change_walk(addr, &held, change),
            Err(addr) => {
                if let Some(value) = change.apply(None) {
                    self.insert_at(addr, Item { key: range, value });
                }
            }
        }
    }
}
