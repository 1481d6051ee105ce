// The days of a month in the Gregorian calendar.
// Document 02, Two: "a day that exists in that month of the Gregorian year".
ghost use Rattle.std.specs.Prelude.{◌≡◌};
ghost use Rattle.paper.specs.Times.{is_leap, days_of};

// How many days the month has in the year; none if there is no such month.
pub fn days_of(year: u16, month: u8) -> u8
    ensures { result ≡ days_of year month }
{
    match month {
        2 if is_leap(year) => 29,
        2 => 28,
        4 | 6 | 9 | 11 => 30,
        1..=12 => 31,
        _ => 0,
    }
}

// Whether the year is a leap year.
fn is_leap(year: u16) -> bool
    ensures { result ≡ is_leap year }
{
    (year % 4 == 0 && year % 100 != 0) || year % 400 == 0
}
