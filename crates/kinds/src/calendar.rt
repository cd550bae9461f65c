// A second of the calendar from 1970 to 2099.
ghost use Rattle.std.specs.Prelude.{◌≡◌, ℕ, ◌+◌, ◌-◌, ◌*◌, ◌<◌, ◌≤◌, MatchResult};
ghost use Rattle.std.proofs.Common.{arith, rules};
ghost use Rattle.kinds.specs.Calendar.{seconds_in, day_of, second_of, place_of, Dated};
ghost use Rattle.kinds.specs.Rows.{before};
ghost use Rattle.kinds.specs.RowsLemmas.{row_within, row_order, row_onto, row_place_same};
ghost use Rattle.kinds.specs.Dates.{seconds_all};
ghost use Rattle.kinds.specs.declared.refusal.KindRefusal.TheVariants.{BadKey};
ghost use denote.Struct.Props.{props};
ghost use Rattle.lawful.proofs.Sealed.{sealed_same};

use crate::date::{Date, seconds_in};
use crate::refusal::KindRefusal;
use lawful::{EqValue, Key, OrderedKey};

// how many days there are from 1970 to 2099
const DAYS: u32 = 47482;

#[derive(Clone, Copy, PartialEq, Eq, PartialOrd, Ord)]
pub struct CalendarSecond {
    // counted from 0 at day 1 of 1970
    day: u32,
    // of the day
    second: u32,
    ghost limits: { (day < 47482) × (second < seconds_in day) },
}

impl EqValue for CalendarSecond {}

impl CalendarSecond {
    // From the day, counted from 0 at day 1 of 1970, and the second of the day: a constructor, as no one value is converted.
    pub fn new(day: u32, second: u32) -> Result<CalendarSecond, KindRefusal>
        ensures { MatchResult result (λ k. (k.day ≡ day) × (k.second ≡ second)) (λ e. (e ≡ KindRefusal.BadKey) × (day < 47482 → seconds_in day ≤ second)) }
    {
        if day >= DAYS || second >= seconds_in(day) {
            return Err(KindRefusal::BadKey);
        }
        Ok(CalendarSecond { day, second })
    }

    pub fn day(&self) -> u32
        ensures { result ≡ self.now.day }
    {
        self.day
    }

    pub fn second(&self) -> u32
        ensures { result ≡ self.now.second }
    {
        self.second
    }

    // The first key, as `Key` has it.
    pub fn min() -> CalendarSecond
        ensures { ⟦<CalendarSecond as Key>⟧.place result ≡ 0 }
    {
        <CalendarSecond as Key>::min()
    }

    // The last key, as `Key` has it.
    pub fn max() -> CalendarSecond
        ensures { ⟦<CalendarSecond as Key>⟧.place result + 1 ≡ ⟦<CalendarSecond as Key>⟧.COUNT }
    {
        <CalendarSecond as Key>::max()
    }
}

// From the year, the day of the year from 1 on, and the time of day.
impl TryFrom<Date> for CalendarSecond {
    type Error = KindRefusal;

    ghost try_from_gives = { λ date r.
        MatchResult r
        (λ k. Dated date × (k.day ≡ day_of date) × (k.second ≡ second_of date))
        (λ e. (e ≡ BadKey) × ¬ Dated date) };

    fn try_from(date: Date) -> Result<CalendarSecond, KindRefusal> {
        if !date.is_dated() {
            return Err(KindRefusal::BadKey);
        }
        Ok(CalendarSecond {
            day: date.day_number(),
            second: date.second_of_day(),
        })
    }
}

// The place of a day's first second.
fn start_of(day: u32) -> u64
    ensures value { result ≡ before seconds_in day }
    ensures even { result ≡ 86400 * day }
{
    u64::from(day) * 86400
}

impl Key for CalendarSecond {
    const COUNT: u64 = 4102444800;

    ghost COUNT = { 4102444800 };

    ghost place = { λ k. place_of k.day k.second };

    ghost positive = { Prim.search rules };

    ghost small = { Prim.search rules };

    ghost within = { λ k. omega (arith, row_within seconds_in 47482 k.day k.second k.limits.0 k.limits.1, seconds_all) };

    ghost onto = { λ p h.
        let r = row_onto seconds_in 47482 p (omega (arith, seconds_all)) in
        (record { day = r.row; second = r.inner; limits = (r.row_below, r.inner_below) }, r.is) };

    ghost injective = { λ a b e.
        sealed_same {P = λ (x : ℕ × ℕ). (x.0 < 47482) × (x.1 < seconds_in x.0)} (λ x h. record { day = x.0; second = x.1; limits = h })
        (λ x. Prim.hlevel props) a.limits b.limits (row_place_same seconds_in a.day b.day a.second b.second a.limits.1 b.limits.1 e) };

    fn place(&self) -> u64 {
        start_of(self.day) + u64::from(self.second)
    }

    fn at(p: u64) -> Option<CalendarSecond> {
        if p >= CalendarSecond::COUNT {
            return None;
        }
        let day = (p / 86400) as u32;
        Some(CalendarSecond {
            day,
            second: (p - start_of(day)) as u32,
        })
    }
}

impl OrderedKey for CalendarSecond {
    ghost ordered = { λ a b. row_order seconds_in a.day b.day a.second b.second a.limits.1 b.limits.1 };
}
