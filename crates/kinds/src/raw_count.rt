// A digitiser's raw count: a signed number of 24 bits.
ghost use Rattle.std.specs.Prelude.{◌≡◌, ◌+◌, ◌⊎◌, pos, negsuc, ◌+ℤ◌, ◌-ℤ◌, ◌≤ℤ◌, ◌<ℤ◌, MatchResult, unsigned_abs};
ghost use Rattle.kinds.specs.RawCount.{from_bytes};
ghost use Rattle.kinds.specs.declared.refusal.KindRefusal.TheVariants.{BadKey};
ghost use Rattle.std.proofs.Common.{arith, rules};
ghost use Rattle.std.proofs.lemmas.Int.{ints};
ghost use denote.Struct.Props.{props};
ghost use Rattle.lawful.proofs.Sealed.{sealed_same};

use crate::refusal::KindRefusal;
use lawful::{EqValue, Key, OrderedKey};

#[derive(Clone, Copy, PartialEq, Eq, PartialOrd, Ord)]
pub struct RawCount {
    value: i32,
    ghost limits: { (negsuc 8388607 ≤ℤ value) × (value ≤ℤ pos 8388607) },
}

impl EqValue for RawCount {}

impl TryFrom<i32> for RawCount {
    type Error = KindRefusal;

    ghost try_from_gives = { λ value r.
        MatchResult r
        (λ k. k.value ≡ value)
        (λ e. (e ≡ BadKey) × ((value <ℤ negsuc 8388607) ⊎ (pos 8388607 <ℤ value))) };

    fn try_from(value: i32) -> Result<RawCount, KindRefusal> {
        if (-8388608..=8388607).contains(&value) {
            Ok(RawCount { value })
        } else {
            Err(KindRefusal::BadKey)
        }
    }
}

// From three bytes, most significant first, in two's complement.
impl From<[u8; 3]> for RawCount {
    ghost from_gives = { λ bytes k. k.value ≡ from_bytes bytes };

    fn from(bytes: [u8; 3]) -> RawCount {
        // the sign's byte stands before the three
        let sign = if bytes[0] < 128 { 0x00 } else { 0xFF };
        RawCount {
            value: i32::from_be_bytes([sign, bytes[0], bytes[1], bytes[2]]),
        }
    }
}

impl RawCount {
    pub fn value(&self) -> i32
        ensures { result ≡ self.now.value }
    {
        self.value
    }

    // The first key, as `Key` has it.
    pub fn min() -> RawCount
        ensures { ⟦<RawCount as Key>⟧.place result ≡ 0 }
    {
        <RawCount as Key>::min()
    }

    // The last key, as `Key` has it.
    pub fn max() -> RawCount
        ensures { ⟦<RawCount as Key>⟧.place result + 1 ≡ ⟦<RawCount as Key>⟧.COUNT }
    {
        <RawCount as Key>::max()
    }
}

impl Key for RawCount {
    const COUNT: u64 = 16777216;

    ghost COUNT = { 16777216 };

    ghost place = { λ k. unsigned_abs (k.value +ℤ pos 8388608) };

    ghost positive = { Prim.search rules };

    ghost small = { Prim.search rules };

    ghost within = { Prim.search rules };

    ghost onto = { λ p h. (record { value = pos p -ℤ pos 8388608; limits = (omega (arith, ints), omega (arith, ints)) }, omega (arith, ints)) };

    ghost injective = { λ a b e. sealed_same (λ z h. record { value = z; limits = h }) (λ z. Prim.hlevel props) a.limits b.limits (omega (arith, ints)) };

    fn place(&self) -> u64 {
        (self.value + 8388608) as u64
    }

    fn at(p: u64) -> Option<RawCount> {
        if p < RawCount::COUNT {
            Some(RawCount {
                value: p as i32 - 8388608,
            })
        } else {
            None
        }
    }
}

impl OrderedKey for RawCount {
    ghost ordered = { Prim.search rules };
}
