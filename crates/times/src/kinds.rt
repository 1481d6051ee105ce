// The kinds of times, by their numbers, and which of them stands between two braces.
// 001 §18, TemporalBody, in its order; document 02, Two.
ghost use Rattle.std.specs.Prelude.{◌≡◌, true, false, List, ◌∷◌, ◌++◌, ℕ};
ghost use Rattle.paper.specs.Bytes.{byte, bytes, is_lower, starts_in};
ghost use Rattle.paper.specs.Times.{among, is_date, time_kind, is_reserved};
ghost use Rattle.times.specs.Numbers.{number_of, number_of_kind, number_or_none, TellsTime};

use crate::dates::{is_date, is_day_of, is_year_month};
use crate::durations::is_span;
use crate::moments::{is_time, is_zone};
use crate::parted::{split_before, split_once};
use text::parts::same;

// A kind of time, with its number.
#[derive(Clone, Copy)]
pub enum Kind {
    Zoned = 1,
    Local = 2,
    Date = 3,
    YearMonth = 4,
    MonthDay = 5,
    Time = 6,
    Duration = 7,
    Reserved = 8,
}

impl Kind {
    pub fn number(self) -> u32
        ensures { result ≡ number_of_kind self }
    {
        self as u32
    }
}

// The kind of time that stands between two braces, or none. The first byte says which kinds can fit at all.
pub fn kind_of(w: &[u8]) -> Option<Kind>
    ensures { number_or_none result ≡ number_of (time_kind w.now) }
{
    match w {
        [b'P', span @ ..] => is_span(span).then_some(Kind::Duration),
        [b'a'..=b'z', ..] => is_reserved(w).then_some(Kind::Reserved),
        _ => numbered_kind(w),
    }
}

// The kind of the value that stands in these bytes with its braces, or none where they are no time.
pub fn value_kind(v: &[u8]) -> Option<Kind>
    ensures { TellsTime v.now (number_or_none result) }
{
    match v {
        [b'{', w @ .., b'}'] => kind_of(w),
        _ => None,
    }
}

// The kind where neither "P" nor a small letter stands first: with a "T", with a ":" and no "T", or with neither, by its length.
fn numbered_kind(w: &[u8]) -> Option<Kind>
    ensures { starts_in (among (bytes "P")) w.now ≡ false → starts_in is_lower w.now ≡ false
        → number_or_none result ≡ number_of (time_kind w.now) }
{
    if let Some((date, time)) = split_once(w, b"T") {
        return if is_date(date) {
            moment_kind(time)
        } else {
            None
        };
    }
    if w.contains(&b':') {
        return is_time(w).then_some(Kind::Time);
    }
    match w.len() {
        10 => is_date(w).then_some(Kind::Date),
        7 => is_year_month(w).then_some(Kind::YearMonth),
        _ => is_day_of(w, 0).then_some(Kind::MonthDay),
    }
}

// The kind of any date, "T" and these bytes. Were it made part of its callers, they would keep too much in memory to be fast.
#[inline(never)]
fn moment_kind(w: &[u8]) -> Option<Kind>
    ensures { (d : List ℕ) → is_date d ≡ true → number_or_none result ≡ number_of (time_kind (d ++ (byte "T" ∷ w.now))) }
{
    let (time, zone) = split_before(w, b"Z+-");
    if !is_time(time) {
        None
    } else if zone.is_empty() {
        Some(Kind::Local)
    } else {
        is_zone(zone).then_some(Kind::Zoned)
    }
}

// Whether the bytes are one of the two reserved words.
fn is_reserved(w: &[u8]) -> bool
    ensures { result ≡ is_reserved w.now }
{
    same(w, b"now") || same(w, b"today")
}
