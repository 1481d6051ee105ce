// Times of day, and the zones that stand behind them.
// 001 §18, Time, TimeZoneOffset and TimeZoneId; document 02, Two.
ghost use Rattle.std.specs.Prelude.{◌≡◌};
ghost use Rattle.paper.specs.Times.{is_time, is_offset, is_zone_byte, is_zone_name, is_zone};
ghost use Rattle.times.specs.Parts.{is_past_hour, is_past_minute, is_hour_minute, are_zone_bytes};

use crate::fields::{are_digits, are_some, is_hour, is_sixtieth};
use crate::parted::{parted, perhaps};
use text::classes;
use text::parts::same;

// Whether the bytes are a time of day.
pub fn is_time(w: &[u8]) -> bool
    ensures { result ≡ is_time w.now }
{
    parted(w, b":", is_hour, is_past_hour)
}

// Whether the bytes are a minute, and perhaps ":" and what stands behind it.
fn is_past_hour(w: &[u8]) -> bool
    ensures { result ≡ is_past_hour w.now }
{
    perhaps(w, b":", is_sixtieth, is_past_minute)
}

// Whether the bytes are a second, and perhaps "." and digits.
fn is_past_minute(w: &[u8]) -> bool
    ensures { result ≡ is_past_minute w.now }
{
    perhaps(w, b".", is_sixtieth, are_digits)
}

// Whether the bytes are an offset, and perhaps a zone's name.
pub fn is_zone(w: &[u8]) -> bool
    ensures { result ≡ is_zone w.now }
{
    perhaps(w, b"[", is_offset, is_zone_name)
}

// Whether the bytes are the offset of a zone: "Z", or a sign, an hour and a minute.
fn is_offset(w: &[u8]) -> bool
    ensures { result ≡ is_offset w.now }
{
    match w {
        [b'+' | b'-', rest @ ..] => is_hour_minute(rest),
        _ => same(w, b"Z"),
    }
}

// Whether the bytes are an hour, ":" and a minute.
fn is_hour_minute(w: &[u8]) -> bool
    ensures { result ≡ is_hour_minute w.now }
{
    parted(w, b":", is_hour, is_sixtieth)
}

// Whether the bytes are a zone's name and its closing bracket.
fn is_zone_name(w: &[u8]) -> bool
    ensures { result ≡ is_zone_name w.now }
{
    parted(w, b"]", are_zone_bytes, |rest| rest.is_empty())
}

// Whether all bytes may stand in a zone's name, which has one at least.
fn are_zone_bytes(w: &[u8]) -> bool
    ensures { result ≡ are_zone_bytes w.now }
{
    are_some(w, is_zone_byte)
}

fn is_zone_byte(b: u8) -> bool
    ensures { result ≡ is_zone_byte b }
{
    classes::is_name_byte(b) || classes::is_one_of(b, b"/_-")
}
