// The labels of raw counts: a struct of known kinds that holds a map can hold with it that the map's list is canonical, so
// that what its calls promise has no premise.
ghost use Rattle.std.specs.Prelude.{◌≡◌, [], IfOk};
ghost use Rattle.ledger.specs.Ledger.{insert as inserting};
ghost use Rattle.ledger.specs.Promise.{Step};
ghost use Rattle.ledger.specs.Spans.{Canonical, held};
ghost use Rattle.rangemap.specs.CanonicalLemmas.{Canonical-prop};
ghost use Rattle.rangemap.specs.Declines.{answer};
ghost use Rattle.rangemap.specs.Making.{Made};
ghost use Rattle.rangemap.specs.Maps.{stored};
ghost use Rattle.rangemap.specs.Ranges.{lo, hi};

use crate::label::Label;
use kinds::RawCount;
use lawful::{Key, Value};
use rangemap::{Decline, MakeDecline, RangeMap, Slots};
use ranges::AnyRange;
use std::alloc::{AllocError, Global};

#[derive(Drop)]
pub struct Labels {
    map: RangeMap<RawCount, Label>,
    ghost canonical: { Canonical ⟦<Label as Value>⟧.equals ⟦<RawCount as Key>⟧.COUNT (stored ⟦<RawCount as Key>⟧ map.store) } by { Canonical-prop ⟦<Label as Value>⟧.equals ⟦<RawCount as Key>⟧.COUNT (stored ⟦<RawCount as Key>⟧ map.store) },
}

impl Labels {
    // No labels, and room for none.
    pub fn without_slots(heap: Global) -> Result<Labels, AllocError>
        ensures { IfOk result (λ labels. (stored ⟦<RawCount as Key>⟧ labels.map.store ≡ []) × (labels.map.store.slots ≡ 0)) }
    {
        let map = RangeMap::without_slots(heap)?;
        Ok(Labels { map })
    }

    // Starts anew over the slots, as the map does.
    pub fn make(
        &mut self,
        slots: Slots<RawCount, Label>,
    ) -> Result<Slots<RawCount, Label>, (MakeDecline, Slots<RawCount, Label>)>
        ensures { Made ⟦<RawCount as Key>⟧ self.old.map.store slots result self.new.map.store }
    {
        self.map.make(slots)
    }

    // Labels the raw counts of the range: the list before is canonical, and so is the one after, as the ledger has it.
    pub fn insert(&mut self, range: AnyRange<RawCount>, label: Label) -> Result<usize, Decline>
        ensures slots { self.new.map.store.slots ≡ self.old.map.store.slots }
        ensures step { Step ⟦<Label as Value>⟧.equals ⟦<RawCount as Key>⟧.COUNT self.old.map.store.slots (stored ⟦<RawCount as Key>⟧ self.old.map.store) (record { call = inserting (lo ⟦<RawCount as Key>⟧ range) (hi ⟦<RawCount as Key>⟧ range) label; answer = answer result }) (stored ⟦<RawCount as Key>⟧ self.new.map.store) }
    {
        self.map.insert(range, label)
    }

    // The label of a raw count, or none.
    pub fn get(&self, key: RawCount) -> Option<Label>
        ensures { result ≡ held (stored ⟦<RawCount as Key>⟧ self.now.map.store) (⟦<RawCount as Key>⟧.place key) }
    {
        self.map.get(key)
    }
}
