// Dates, year-months and month-days.
// 001 §18, Date, YearMonth and MonthDay; document 02, Two.
ghost use Rattle.std.specs.Prelude.{◌≡◌};
ghost use Rattle.paper.specs.Times.{is_date, is_year_month, is_day_of};

use crate::days::days_of;
use crate::fields::{is_month, is_year, pair, two_digits, year};
use crate::parted::{parted, split_once};

// Whether the bytes are a date: a year, and a day in it.
pub fn is_date(w: &[u8]) -> bool
    ensures { result ≡ is_date w.now }
{
    let Some((front, rest)) = split_once(w, b"-") else {
        return false;
    };
    year(front).is_some_and(|year| is_day_of(rest, year))
}

// Whether the bytes are a year and a month.
pub fn is_year_month(w: &[u8]) -> bool
    ensures { result ≡ is_year_month w.now }
{
    parted(w, b"-", is_year, is_month)
}

// Whether the bytes are a month and a day that exists in it in this year.
pub fn is_day_of(w: &[u8], year: u16) -> bool
    ensures { result ≡ is_day_of year w.now }
{
    let Some((front, day)) = split_once(w, b"-") else {
        return false;
    };
    is_month(front) && pair(front).is_some_and(|month| two_digits(day, 1, days_of(year, month)))
}
