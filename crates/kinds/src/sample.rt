// The sample within a second, 0 to 199.
ghost use Rattle.std.specs.Prelude.{◌≡◌, ◌+◌, ◌<◌, ◌≤◌, MatchResult, refl};
ghost use Rattle.kinds.specs.declared.refusal.KindRefusal.TheVariants.{BadKey};
ghost use denote.Struct.Props.{props};
ghost use Rattle.lawful.proofs.Sealed.{sealed_same};
ghost use Rattle.std.proofs.Common.{rules};

use crate::refusal::KindRefusal;
use lawful::{EqValue, Key, OrderedKey};

// A type of its own beside `RawCount`: one type for both would take the integer, its limits and the
// first key's value as parameters, and each integer would still need its own way to a place.
#[derive(Clone, Copy, PartialEq, Eq, PartialOrd, Ord)]
pub struct Sample {
    number: u8,
    ghost low: { number < 200 },
}

impl EqValue for Sample {}

impl TryFrom<u8> for Sample {
    type Error = KindRefusal;

    ghost try_from_gives = { λ number r.
        MatchResult r
        (λ k. k.number ≡ number)
        (λ e. (e ≡ BadKey) × (200 ≤ number)) };

    fn try_from(number: u8) -> Result<Sample, KindRefusal> {
        if number < 200 {
            Ok(Sample { number })
        } else {
            Err(KindRefusal::BadKey)
        }
    }
}

impl Sample {
    pub fn number(&self) -> u8
        ensures { result ≡ self.now.number }
    {
        self.number
    }

    // The first key, as `Key` has it.
    pub fn min() -> Sample
        ensures { ⟦<Sample as Key>⟧.place result ≡ 0 }
    {
        <Sample as Key>::min()
    }

    // The last key, as `Key` has it.
    pub fn max() -> Sample
        ensures { ⟦<Sample as Key>⟧.place result + 1 ≡ ⟦<Sample as Key>⟧.COUNT }
    {
        <Sample as Key>::max()
    }
}

impl Key for Sample {
    const COUNT: u64 = 200;

    ghost COUNT = { 200 };

    ghost place = { λ k. k.number };

    ghost positive = { Prim.search rules };

    ghost small = { Prim.search rules };

    ghost within = { Prim.search rules };

    ghost onto = { λ p h. (record { number = p; low = h }, refl) };

    ghost injective = { λ a b e. sealed_same (λ n h. record { number = n; low = h }) (λ n. Prim.hlevel props) a.low b.low e };

    fn place(&self) -> u64 {
        u64::from(self.number)
    }

    fn at(p: u64) -> Option<Sample> {
        if p < Sample::COUNT {
            Some(Sample { number: p as u8 })
        } else {
            None
        }
    }
}

impl OrderedKey for Sample {
    ghost ordered = { Prim.search rules };
}
