// The steps of a backward walk at one address.
ghost use Rattle.std.specs.Prelude.{◌≡◌, ◌+◌, ◌-◌, ◌<◌, ◌≤◌, drop, length, set, None, MatchOption, MatchResult, slice_index_or};
ghost use Rattle.rangemap.specs.Contents.{HasRoom};
ghost use Rattle.rangemap.specs.Items.{ConnectedAt, Found, Free, Rests, listed, tail_after, tail_made};
ghost use Rattle.rangemap.specs.Ranges.{Connected};
ghost use Rattle.rangemap.specs.Search.{Index};
ghost use Rattle.rangemap.specs.Spans.{Tight};
ghost use Rattle.rangemap.specs.Spots.{Steps, address, more, next};

use super::held_range::HeldRange;
use super::item::Item;
use super::items::Items;
use super::search::address;
use super::spot::Spot;
use lawful::{Key, Value};
use ranges::{AnyRange, ProductArg};

impl<K: Key, V: Value> Items<K, V> {
    // `search::address` in the words of the walks: of a tight list, where the map's own call speaks of one that rises.
    // The address of the last item that shares a key with the given range, else of the last that touches it; else where it would stand.
    pub(crate) fn address_of(&self, key: &HeldRange<K>) -> Result<usize, usize>
        ensures within { Index (length self.now.items) result }
        ensures found { Tight V.equals (listed K.Key.own self.now) → MatchResult result (Found K.Key.own key.now.range self.now.items) (Free K.Key.own key.now.range self.now.items) }
    {
        address(self.as_slice(), key, true)
    }

    // Puts what was made of a part, if both are there.
    pub(crate) fn put_made(&mut self, at: Spot, part: Option<AnyRange<K>>, made: Option<V>) -> Spot
        requires within { address at < length self.old.items }
        requires room { HasRoom 1 self.old }
        ensures steps { Steps K.Key.own (more at) at self.old result self.new (tail_made K.Key.own V.equals made part (drop (next at) (listed K.Key.own self.old))) }
        ensures stays { made ≡ None → self.new ≡ self.old }
    {
        let (Some(range), Some(value)) = (part, made) else {
            return at;
        };
        self.put_item(at, Item { key: range, value });
        Spot::Kept(at.address())
    }

    // The item at addr keeps a part of its range.
    fn keep_part(&mut self, addr: usize, part: Item<K, V>) -> Spot
        requires { addr < length self.old.items }
        ensures at { result ≡ Spot.Kept addr }
        ensures items { self.new ≡ record self.old { items = set self.old.items addr part } }
    {
        self.set_at(addr, part);
        Spot::Kept(addr)
    }

    // What follows the key stays with the item at addr, as it is; or what follows the item gets what was made of none.
    pub(crate) fn settle_after(
        &mut self,
        addr: usize,
        value: V,
        after: Option<ProductArg<K>>,
        blank: Option<V>,
    ) -> Spot
        requires within { addr < length self.old.items }
        requires room { HasRoom 1 self.old }
        ensures rests { Rests addr value blank after self.old self.new }
        ensures steps { Steps K.Key.own 0 (Spot.Spent addr) self.old result self.new (tail_after K.Key.own V.equals value blank after (drop (addr + 1) (listed K.Key.own self.old))) }
    {
        match after {
            Some(ProductArg::Object(key)) => self.keep_part(addr, Item { key, value }),
            Some(ProductArg::Subject(range)) => {
                self.put_made(Spot::Spent(addr), Some(range), blank)
            }
            None => Spot::Spent(addr),
        }
    }

    // The address before the spot, if the item there is connected to the key.
    pub(crate) fn connected_before(&self, at: Spot, key: AnyRange<K>) -> Option<usize>
        requires { address at < length self.now.items }
        ensures { MatchOption result ((x : Item K V) → 0 < address at → x ≡ slice_index_or self.now.items (address at - 1) x → Connected K.Key.own x.key key → ⊥) (λ prev. (prev + 1 ≡ address at) × ConnectedAt K.Key.own key self.now.items prev) }
    {
        let prev = self.previous_item_address(at.address())?;
        self.get_at(prev).key.connected_to(&key).then_some(prev)
    }
}
