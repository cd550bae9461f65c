// The search over the slots.
ghost use Rattle.std.specs.Prelude.{◌≡◌, ◌+◌, ◌<◌, length, IfSome, Decides, nat_le};
ghost use Rattle.ranges.specs.Ranges.{Held};
ghost use Rattle.ranges.specs.Parts.{span as ends};
ghost use Rattle.rangemap.specs.Items.{spans};
ghost use Rattle.rangemap.specs.Ranges.{Meets, slack};
ghost use Rattle.rangemap.specs.Search.{Found, Index, Rising, Searched, Starting};

use super::held_range::HeldRange;
use super::item::Item;
use lawful::{Key, Value};
use ranges::AnyRange;

// `connected` is the Rust's flag, here and below: whether touching ranges count. The first two are a line each over the answer
// of one comparison, and promise different things of it.

// Whether a range ends before the other starts; if touching ranges count as connected, with a key between.
fn is_before<K: Key>(a: &AnyRange<K>, b: &AnyRange<K>, connected: bool) -> bool
    ensures { Held (ends K.Key.own a.now) → Held (ends K.Key.own b.now) → result ≡ nat_le ((ends K.Key.own a.now).high + slack connected) (ends K.Key.own b.now).low }
{
    a.range_partial_cmp(b)
        .is_none_or(|order| order.is_before(connected))
}

// Whether the two share a key; if touching ranges count as connected, or touch.
pub(crate) fn matches<K: Key>(a: &AnyRange<K>, b: &AnyRange<K>, connected: bool) -> bool
    ensures { Held (ends K.Key.own a.now) → Held (ends K.Key.own b.now) → Decides result (Meets (slack connected) (ends K.Key.own a.now) (ends K.Key.own b.now)) }
{
    a.range_partial_cmp(b)
        .is_some_and(|order| order.matches(connected))
}

// The index of the last stored range that does not start past the key.
fn binary_search<K: Key, V: Value>(
    items: &[Item<K, V>],
    key: &HeldRange<K>,
    connected: bool,
) -> Option<usize>
    ensures within { IfSome result (λ i. i < length items.now) }
    ensures found { Starting ((ends K.Key.own key.now.range).high + slack connected) (spans K.Key.own items.now) result }
{
    if items.is_empty() || is_before(&key.range, &items[0].key, connected) {
        return None;
    }
    // the form of this project for a search: a loop over the slots that hands out the index by `break`
    let mut i = 0;
    let mut j = items.len();
    let found = loop {
        if j - i <= 1 {
            break i;
        }
        let k = i + (j - i) / 2;
        if is_before(&key.range, &items[k].key, connected) {
            j = k;
        } else {
            i = k;
        }
    };
    Some(found)
}

// The last stored range that shares a key with the given one, else the place where that would stand. If connected, ranges that touch it count too.
fn address_in<K: Key, V: Value>(
    items: &[Item<K, V>],
    key: &HeldRange<K>,
    connected: bool,
) -> Result<usize, usize>
    ensures within { Index (length items.now) result }
    ensures found { Rising (spans K.Key.own items.now) → Found (slack connected) (ends K.Key.own key.now.range).low (ends K.Key.own key.now.range).high (spans K.Key.own items.now) result }
{
    match binary_search(items, key, connected) {
        Some(i) if matches(&key.range, &items[i].key, connected) => Ok(i),
        Some(i) => Err(i + 1),
        None => Err(0),
    }
}

// The last stored range that shares a key with the given one; if connected, else the last that touches it; else the place where it would stand.
pub(crate) fn address<K: Key, V: Value>(
    items: &[Item<K, V>],
    key: &HeldRange<K>,
    connected: bool,
) -> Result<usize, usize>
    ensures within { Index (length items.now) result }
    ensures found { Rising (spans K.Key.own items.now) → Searched connected (ends K.Key.own key.now.range).low (ends K.Key.own key.now.range).high (spans K.Key.own items.now) result }
{
    match address_in(items, key, false) {
        Err(_) if connected => address_in(items, key, true),
        found => found,
    }
}
