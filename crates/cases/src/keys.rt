// Keys: bytes with their sign, dates, and how many keys each kind has.
ghost use Rattle.std.specs.Prelude.{◌≡◌, [], ◌∷◌, pos, neg_ℤ};

use kinds::{CalendarSecond, Date, Instant, RawCount, Sample};
use lawful::Key;

// Bytes FF FF FB make -5.
pub fn minus_five() -> i32
    ensures { result ≡ neg_ℤ (pos 5) }
{
    RawCount::from([0xFF, 0xFF, 0xFB]).value()
}

// 2099 has no day 366: at any time of day the refusal is number 8.
pub fn no_day_366_in_2099(hour: u8, minute: u8, second: u8) -> u8
    ensures { result ≡ 8 }
{
    let date = Date {
        year: 2099,
        day: 366,
        hour,
        minute,
        second,
    };
    CalendarSecond::try_from(date).unwrap_err().into()
}

// The place of 2000 day 1 00:00:00.
pub fn place_of_year_2000() -> u64
    ensures { result ≡ 946684800 }
{
    let date = Date {
        year: 2000,
        day: 1,
        hour: 0,
        minute: 0,
        second: 0,
    };
    CalendarSecond::try_from(date).unwrap().place()
}

// How many raw counts, samples, calendar seconds and instants there are.
pub fn counts() -> [u64; 4]
    ensures { result ≡ 16777216 ∷ 200 ∷ 4102444800 ∷ 820488960000 ∷ [] }
{
    [
        RawCount::COUNT,
        Sample::COUNT,
        CalendarSecond::COUNT,
        Instant::COUNT,
    ]
}
