// A day of a year and a time of that day.
ghost use Rattle.std.specs.Prelude.{◌≡◌, ◌+◌, ◌<◌, ◌≤◌, ◌↔◌, IsTrue};
ghost use Rattle.kinds.specs.Calendar.{days_in, days_to, seconds_in};

// Any five numbers: which of them name a second of the calendar, `CalendarSecond::try_from` answers.
#[derive(Clone, Copy, PartialEq, Eq, Debug)]
pub struct Date {
    pub year: u16,
    // of the year, from 1 on
    pub day: u16,
    pub hour: u8,
    pub minute: u8,
    pub second: u8,
}

impl Date {
    ghost use Rattle.kinds.specs.Calendar.{day_of, seconds_of_minute, second_of, NamesDay, Dated};

    // Whether every field is within its limits.
    pub(crate) fn is_dated(&self) -> bool
        ensures { IsTrue result ↔ Dated self.now }
    {
        self.names_day()
            && self.hour < 24
            && self.minute < 60
            && u32::from(self.second) < self.seconds_of_minute()
    }

    fn names_day(&self) -> bool
        ensures { IsTrue result ↔ NamesDay self.now }
    {
        (1970..=2099).contains(&self.year) && (1..=days_in(self.year)).contains(&self.day)
    }

    // The number of the day, 0 at day 1 of 1970.
    pub(crate) fn day_number(&self) -> u32
        requires { NamesDay self.now }
        ensures value { result ≡ day_of self.now }
        ensures within { result < 47482 }
    {
        days_to(self.year) + u32::from(self.day - 1)
    }

    // The last minute of a day has the seconds that the others leave.
    fn seconds_of_minute(&self) -> u32
        requires day { NamesDay self.now }
        requires minute { (self.now.hour < 24) × (self.now.minute < 60) }
        ensures { result ≡ seconds_of_minute self.now }
    {
        if self.hour == 23 && self.minute == 59 {
            return seconds_in(self.day_number()) - 86340;
        }
        60
    }

    // The second of the day.
    pub(crate) fn second_of_day(&self) -> u32
        ensures { result ≡ second_of self.now }
    {
        u32::from(self.hour) * 3600 + u32::from(self.minute) * 60 + u32::from(self.second)
    }
}

pub(crate) fn seconds_in(_day: u32) -> u32
    ensures { result ≡ seconds_in _day }
{
    86400
}

fn days_in(year: u16) -> u16
    ensures { result ≡ days_in year }
{
    if year % 4 == 0 && year % 100 != 0 || year % 400 == 0 {
        366
    } else {
        365
    }
}

// The days from day 1 of 1970 to day 1 of the year: until 2099 a leap year comes every four years.
fn days_to(year: u16) -> u32
    requires { (1970 ≤ year) × (year ≤ 2099) }
    ensures value { result ≡ days_to year }
    ensures room { result + days_in year ≤ 47482 }
{
    let n = u32::from(year - 1970);
    365 * n + (n + 1) / 4
}
