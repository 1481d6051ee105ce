// Durations.
// 001 §18, Duration; document 02, Two: at least one part, and one after "T" if it stands.
ghost use Rattle.std.specs.Prelude.{◌≡◌, ℕ, Bool, List, length};
ghost use Rattle.paper.specs.Times.{are_parts, are_date_parts, are_time_parts, is_span};
ghost use Rattle.times.specs.Parts.{is_decimals, Judges};

use crate::fields::are_digits;
use crate::parted::{perhaps, split_once};

// Whether the bytes are what stands behind the "P" of a duration.
pub fn is_span(w: &[u8]) -> bool
    ensures { result ≡ is_span w.now }
{
    match split_once(w, b"T") {
        Some((date, time)) => (date.is_empty() || are_date_parts(date)) && are_time_parts(time),
        None => are_date_parts(w),
    }
}

fn are_date_parts(w: &[u8]) -> bool
    ensures { result ≡ are_date_parts w.now }
{
    are_parts(w, b"YMWD", are_digits)
}

fn are_time_parts(w: &[u8]) -> bool
    ensures { result ≡ are_time_parts w.now }
{
    are_parts(w, b"HMS", are_decimals)
}

// Whether the bytes are parts, one at least: a size, and one of the letters behind it.
fn are_parts<F: Fn(&[u8]) -> bool>(w: &[u8], letters: &[u8], is_size: F) -> bool
    requires { F.IsAlwaysCallable is_size }
    ensures { (size : List ℕ → Bool) → Judges F.Fn is_size size → result ≡ are_parts size letters.now (length w.now) w.now }
{
    let mut left = w;
    while let Some((size, rest)) = split_once(left, letters) {
        if !is_size(size) {
            return false;
        }
        if rest.is_empty() {
            return true;
        }
        left = rest;
    }
    false
}

// Whether the bytes are digits, and perhaps "." and digits.
fn are_decimals(w: &[u8]) -> bool
    ensures { result ≡ is_decimals w.now }
{
    perhaps(w, b".", are_digits, are_digits)
}
