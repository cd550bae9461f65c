// How near the rail a raw count lies.
ghost use Rattle.std.specs.Prelude.{◌≡◌, ◌<◌, ◌⊎◌, ◌↔◌, IsTrue, MatchResult};
ghost use Rattle.kinds.specs.Values.{band_number};
ghost use Rattle.kinds.specs.declared.refusal.KindRefusal.TheVariants.{BadKey};

use crate::refusal::KindRefusal;
use lawful::EqValue;

#[derive(Clone, Copy, PartialEq, Eq)]
pub enum Band {
    Usable,
    NearRail,
    Rail,
}

impl EqValue for Band {}

// A row of a band table: the raw counts from `first` to `last` have the band.
#[derive(Clone, Copy)]
pub struct BandRow {
    pub first: i32,
    pub last: i32,
    pub band: Band,
}

// From its number, 1 to 3.
impl TryFrom<u16> for Band {
    type Error = KindRefusal;

    ghost try_from_gives = { λ number r.
        MatchResult r
        (λ b. band_number b ≡ number)
        (λ e. (e ≡ BadKey) × ((number ≡ 0) ⊎ (3 < number))) };

    fn try_from(number: u16) -> Result<Band, KindRefusal> {
        match number {
            1 => Ok(Band::Usable),
            2 => Ok(Band::NearRail),
            3 => Ok(Band::Rail),
            _ => Err(KindRefusal::BadKey),
        }
    }
}

impl From<Band> for u16 {
    ghost from_gives = { λ b number. number ≡ band_number b };

    fn from(band: Band) -> u16 {
        match band {
            Band::Usable => 1,
            Band::NearRail => 2,
            Band::Rail => 3,
        }
    }
}

impl Band {
    // What `==` answers: whether the numbers are the same.
    pub fn equals(&self, other: &Band) -> bool
        ensures derived { result ≡ ⟦<Band as PartialEq>⟧.eq self.now other.now }
        ensures numbers { IsTrue result ↔ (band_number self.now ≡ band_number other.now) }
    {
        self == other
    }
}
