// The map: ranges in rising order, in memory that was set aside when the map was made.
ghost use Rattle.std.specs.Prelude.{◌≤◌};

use super::store::Store;

mod changes;
mod making;
mod reads;
pub(crate) mod walkers;

#[derive(Drop)]
pub struct RangeMap<K, V> {
    store: Store<K, V>,
    ghost limited: { store.slots ≤ 4096 },
}
